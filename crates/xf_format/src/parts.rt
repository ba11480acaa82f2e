//! The parts of a head, by the tokens that write them.
ghost use Rattle.std.specs.Prelude.{◌≡◌};
ghost use Rattle.xf_format.specs.Parts.{no_parts};

use crate::row::Row;
use std::alloc::Global;
use xf_dense::Body;
use xf_ir::IteratorList;
use xf_type::{AffineMap, CmpKind, ListOf, PlaceList, TypeList, Width};

/// How many entries a list of an operation may have, and bytes a name or a string.
pub const MOST_ENTRIES: usize = 0xffff_ffff;

/// The name of a value that is defined, by its token, and how many it names: k of results `%n:k`, and 1
/// of any other name. A number above 2^32 - 1 is 2^32 - 1.
#[derive(Clone, Copy, Debug, PartialEq, Eq)]
pub struct Ref {
    pub token: usize,
    pub count: u32,
}

/// Names of values that are defined, in order.
pub type RefList = ListOf<Ref>;

/// The name of an operand by its token, with the number of a use `%n#i`. A number above 2^32 - 1 is
/// 2^32 - 1.
#[derive(Clone, Copy, Debug, PartialEq, Eq)]
pub struct Use {
    pub token: usize,
    pub number: Option<u32>,
}

/// Names of operands, in order.
pub type UseList = ListOf<Use>;

/// The value of a constant.
#[derive(Clone, Copy, Debug, PartialEq, Eq)]
pub enum Literal {
    /// `true` or `false`, as a number of the width 1.
    Truth(bool),
    /// The number that the token with this number writes, with a `-` before it or not.
    Integer { negative: bool, token: usize },
    /// The numbers of a tensor, which the body has.
    Elements,
}

/// An offset or a size of a window.
#[derive(Clone, Copy, Debug, PartialEq, Eq)]
pub enum PlaceEntry {
    /// The number that the token with this number writes, with a `-` before it or not.
    Number { negative: bool, token: usize },
    /// The next operand.
    Value,
}

/// The offsets or the sizes of a window, in order.
pub type PlaceEntryList = ListOf<PlaceEntry>;

/// A map of a `linalg.generic`.
#[derive(Debug, Drop)]
pub enum MapEntry {
    /// One that is written.
    Written(AffineMap),
    /// The one that the alias means which the token with this number names.
    Alias(usize),
}

/// Maps, in the order of the text.
pub type MapEntryList = ListOf<MapEntry>;

/// The value of a discardable attribute.
#[derive(Clone, Copy, Debug, PartialEq, Eq)]
pub enum EntryValue {
    /// No value, or `unit`.
    Unit,
    /// `true` or `false`, as a number of the width 1.
    Truth(bool),
    /// The number that the token with this number writes, with a `-` before it or not. The width has
    /// room for it.
    Integer {
        negative: bool,
        token: usize,
        width: Width,
    },
    /// The string that the token with this number writes.
    Text(usize),
}

/// A discardable attribute: the token of its name, and its value.
#[derive(Clone, Copy, Debug, PartialEq, Eq)]
pub struct AttrEntry {
    pub name: usize,
    pub value: EntryValue,
}

/// Discardable attributes, in the order of the text.
pub type EntryList = ListOf<AttrEntry>;

/// What is read of an operation but for the operations inside it: its head, which is the names of its
/// results, its word and its slots, up to the first brace; and, behind that in each list, what the
/// headers of its bodies and its tail behind them add. Tokens are named by their numbers in the text.
#[derive(Drop)]
pub struct Parts {
    /// Which operation it is, by its word.
    pub row: Row,
    /// The token of the symbol of a function, a callee or a module; a module may have none, and other
    /// operations have none.
    pub symbol: Option<usize>,
    /// Whether a function is `private`; false of other operations.
    pub private: bool,
    /// The predicate of a comparison, and none of other operations.
    pub predicate: Option<CmpKind>,
    /// The value of a constant, and none of other operations.
    pub literal: Option<Literal>,
    /// The body of a constant that is a tensor, and an empty one of other operations.
    pub dense: Body,
    /// The offsets of the window of a slice. The operands among them stand among the others too, in order.
    pub offsets: PlaceEntryList,
    /// The sizes of the window, likewise.
    pub sizes: PlaceEntryList,
    /// What is read of a map that is not whole yet; else one without dimensions.
    pub map: AffineMap,
    /// The maps of a `linalg.generic`.
    pub maps: MapEntryList,
    /// Its iterator types.
    pub iterators: IteratorList,
    /// Discardable attributes, a name twice where the text has it twice.
    pub entries: EntryList,
    /// The names of the results, `%n` and `%n:k`: one at most.
    pub defines: RefList,
    /// The names that the operation gives to arguments of its blocks: of a function, of a loop with its
    /// `iter_args`, and of the headers of its bodies.
    pub args: RefList,
    /// The names of the operands, those of `iter_args` included.
    pub uses: UseList,
    /// The types that are stated but for those of results, in order: of arguments, of operands, and
    /// the widths of the operation; of a loop without a width, `index`; of a constant that is `true` or
    /// `false`, `i1`.
    pub types: TypeList,
    /// The types behind `->`, in order, those of the tail included.
    pub results: TypeList,
}

impl Parts {
    /// No parts of a row.
    pub fn new(alloc: Global, row: Row) -> Parts
        ensures { result ≡ no_parts row }
    {
        Parts {
            row,
            symbol: None,
            private: false,
            predicate: None,
            literal: None,
            dense: Body::new(alloc),
            offsets: ListOf::new(alloc),
            sizes: ListOf::new(alloc),
            map: AffineMap {
                dims: 0,
                results: PlaceList::new(alloc),
            },
            maps: ListOf::new(alloc),
            iterators: ListOf::new(alloc),
            entries: ListOf::new(alloc),
            defines: ListOf::new(alloc),
            args: ListOf::new(alloc),
            uses: ListOf::new(alloc),
            types: ListOf::new(alloc),
            results: ListOf::new(alloc),
        }
    }
}
