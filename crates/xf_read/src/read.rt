//! The module of a text.
ghost use Rattle.std.specs.Prelude.{◌≡◌, ◌^◌, ◌<◌, IfOk, IfErr};
ghost use Rattle.xf_read.specs.Meant.{file_count, module_place};
ghost use Rattle.xf_read.specs.Spells.{Spells, HasPlaces, IsUnread};
ghost use Rattle.xf_read.specs.Walks.{IsBuilt};

use crate::faults::Faults;
use crate::scope::VisibleNames;
use crate::stop::{first_fault, unread};
use crate::walk::{PlaceOfList, Walk, operation, place_of};
use std::alloc::Global;
use xf_ir::Module;
use xf_lex::{Token, tokens};
use xf_span::{FIRST_PLACE, Place, ReadFault};
use xf_syntax::{File, syntax};
use xf_type::NoMemory;

/// A module, and the place of each of its operations by its name's number.
#[derive(Drop)]
pub struct ReadModule {
    pub module: Module,
    pub places: PlaceOfList,
}

/// What a file means, and its faults of names and types.
#[derive(Drop)]
pub struct Built {
    pub module: Module,
    pub places: PlaceOfList,
    pub faults: Faults,
}

/// The place of the module.
fn module_place(tokens: &[Token], file: &File) -> Place
    ensures { result ≡ module_place tokens.now file.now }
{
    if file.written {
        place_of(tokens, file.root.first)
    } else {
        FIRST_PLACE
    }
}

/// What a file means. Refuses for want of memory alone.
fn build(alloc: Global, tokens: &[Token], file: File) -> Result<Built, NoMemory>
    requires { file_count tokens.now file < 2 ^ 64 }
    ensures { IfOk result (λ built. IsBuilt tokens.now file built) }
{
    let mut walk = Walk {
        scope: VisibleNames::new(alloc),
        faults: Faults::none(),
        places: PlaceOfList::new(alloc),
        next: 0,
    };
    let place = module_place(tokens, &file);
    let root = operation(alloc, tokens, &mut walk, place, file.root)?;
    let Walk {
        scope: _scope,
        faults,
        places,
        next,
    } = walk;
    Ok(Built {
        module: Module { root, next },
        places,
        faults,
    })
}

/// The module that a text spells, and the places of its operations.
///
/// It refuses a text that spells none, and answers its first fault: of its tokens, else of the
/// syntax, else of names and types, where an undefined name goes before a name that stands twice,
/// and that before types and numbers that differ. It takes time in the length of the text and the
/// logarithm of the number of names.
pub fn read_module(alloc: Global, bytes: &[u8]) -> Result<ReadModule, ReadFault>
    ensures spells { IfOk result (λ read. Spells bytes.now read.module) }
    ensures places { IfOk result (λ read. HasPlaces bytes.now read.places) }
    ensures fault { IfErr result (λ fault. IsUnread bytes.now fault) }
{
    let tokens = tokens(alloc, bytes)?;
    let tokens = tokens.as_slice();
    let file = match syntax(alloc, tokens) {
        Ok(file) => file,
        Err(fault) => return Err(unread(tokens, fault)),
    };
    let built = build(alloc, tokens, file)?;
    if let Some(fault) = first_fault(tokens, built.faults) {
        return Err(ReadFault::At(fault));
    }
    let Built {
        module,
        places,
        faults: _faults,
    } = built;
    Ok(ReadModule { module, places })
}
