//! The cells of a payload's operands and values.
ghost use Rattle.std.specs.Prelude.{◌≡◌, ◌≢◌, ℕ, ◌+◌, ◌<◌, ◌≤◌, ◌^◌, [], length, slice_index};
ghost use Rattle.std.specs.Prelude.{true, false, Some, None, IfSome, IfNone, IfOk, OnOk, OnErr};
ghost use Rattle.std.specs.Bool.{OnTrue, OnFalse};
ghost use Rattle.xf_index.specs.Index.{name_at};
ghost use Rattle.xf_rings.specs.Groups.{AreMembers};
ghost use Rattle.xf_uses.specs.declared.cell.CellName.TheVariants.{Operand, Value};
ghost use Rattle.xf_uses.specs.Cells.{cell_at, room, cell_count, AreCells};
ghost use Rattle.xf_uses.specs.Uses.{Has, Links, Operands, Values, AreUses, AreUsesOf, ChangesOperand, ChangesValue};
ghost use Rattle.xf_uses.specs.Stores.{no_operands, no_values, IsLoose, HasOwner, IsRoomier, Takes, Stays};

use crate::cell::{CellName, Definition};
use crate::number::cell_number;
use crate::uses::Uses;
use std::alloc::{AllocError, Global};
use std::marker::Model;
use xf_index::NameIndex;
use xf_rings::Groups;
use xf_type::NoMemory;

/// The cells of a payload's operands and values.
#[derive(Drop)]
pub struct UseLists {
    cells: Vec<Option<CellName>>,
    groups: Groups,
    index: NameIndex,
}

impl Model for UseLists {
    ghost use Rattle.xf_uses.specs.Cells.{Cells, AreCells};

    ghost Value = { Cells };

    ghost view = { λ a. record { names = a.cells.items; owner = a.groups } };

    ghost invariant = { λ a. AreCells a.cells.items a.groups a.index };
}

impl UseLists {
    /// The cell that stands for a name, or `None` exactly where none does.
    fn find(&self, name: CellName) -> Option<u32>
        ensures some { IfSome result (λ c. cell_at self.now.names c ≡ Some name) }
        ensures none { IfNone result (Has self.now name → ⊥) }
    {
        if self.index.size() == 0 {
            return None;
        }
        for cell in self.index.near(cell_number(name)) {
            if (cell as usize) < self.cells.len() {
                if let Some(other) = self.cells[cell as usize] {
                    if other == name {
                        return Some(cell);
                    }
                }
            }
        }
        None
    }

    /// The cell that stands for a name.
    fn cell(&self, name: CellName) -> u32
        requires { Has self.now name }
        ensures { cell_at self.now.names result ≡ Some name }
    {
        match self.find(name) {
            Some(cell) => cell,
            None => unreachable!(),
        }
    }

    /// Whether a cell stands for the name. Takes constant time.
    pub fn has(&self, name: CellName) -> bool
        ensures yes { OnTrue result (Has self.now name) }
        ensures no { OnFalse result (Has self.now name → ⊥) }
    {
        self.find(name).is_some()
    }

    /// Whether there is no room for one more operand or value. Takes constant time.
    pub fn is_full(&self) -> bool
        ensures yes { OnTrue result (room self.now ≡ 0) }
        ensures no { OnFalse result (0 < room self.now) }
    {
        match next_loose(&self.groups) {
            Some(_cell) => false,
            None => true,
        }
    }

    /// Whether an operand uses the value. Takes constant time.
    pub fn is_used(&self, value: Definition) -> bool
        ensures yes { OnTrue result ((n : ℕ) × ((k : ℕ) × Links self.now n k value)) }
        ensures no { OnFalse result ((n k : ℕ) → Links self.now n k value → ⊥) }
    {
        match self.find(CellName::Value(value)) {
            Some(cell) => has_members(&self.groups, cell),
            None => false,
        }
    }

    /// No cells for operands or values. Refuses for want of memory alone.
    pub fn new(alloc: Global) -> Result<UseLists, NoMemory>
        ensures uses { IfOk result (λ a. AreUses a no_operands no_values) }
        ensures cells { IfOk result (λ a. cell_count a ≡ 0) }
    {
        let mut cells = Vec::new(alloc);
        cells.push(None)?;
        let mut groups = Groups::new(alloc);
        groups.grow()?;
        let mut index = NameIndex::new(alloc);
        index.grow(alloc)?;
        Ok(UseLists {
            cells,
            groups,
            index,
        })
    }

    /// One cell more. Takes constant time, but for the growth of its lists, which double.
    ///
    /// Refuses for want of memory alone, and then stands for what it stood for, with as many cells.
    pub fn grow(&mut self, alloc: Global) -> Result<(), NoMemory>
        ensures ok { OnOk result (IsRoomier self.old self.new) }
        ensures err { OnErr result (self.new ≡ self.old) }
    {
        grow_index(&mut self.index, alloc, self.cells.len())?;
        self.cells.reserve(1)?;
        let cell = self.cells.len() as u32;
        self.groups.grow()?;
        self.cells.push_reserved(None);
        self.groups.join(cell, 0);
        Ok(())
    }

    /// Lets a value be defined. Takes one cell, constant time, and no memory.
    pub fn define(&mut self, value: Definition)
        requires room { 0 < room self.old }
        requires fresh { Has self.old (Value value) → ⊥ }
        ensures values { ChangesValue self.old self.new value true }
        ensures room { Takes self.old self.new }
    {
        let cell = loose_cell(&self.groups);
        self.groups.leave(cell);
        self.index.put(cell, cell_number(CellName::Value(value)));
        self.cells[cell as usize] = Some(CellName::Value(value));
    }

    /// Lets an operand use a value. Takes one cell, constant time, and no memory.
    pub fn add(&mut self, op: u64, num: u32, value: Definition)
        requires room { 0 < room self.old }
        requires fresh { Has self.old (Operand op num) → ⊥ }
        requires defined { Has self.old (Value value) }
        ensures operands { ChangesOperand self.old self.new op num (Some value) }
        ensures room { Takes self.old self.new }
    {
        let head = self.cell(CellName::Value(value));
        let cell = loose_cell(&self.groups);
        self.groups.leave(cell);
        self.groups.join(cell, head);
        self.index
            .put(cell, cell_number(CellName::Operand { op, num }));
        self.cells[cell as usize] = Some(CellName::Operand { op, num });
    }

    /// Lets an operand use another value, or the same. Takes constant time, and no memory.
    pub fn set(&mut self, op: u64, num: u32, value: Definition)
        requires there { Has self.old (Operand op num) }
        requires defined { Has self.old (Value value) }
        ensures operands { ChangesOperand self.old self.new op num (Some value) }
        ensures room { Stays self.old self.new }
    {
        let head = self.cell(CellName::Value(value));
        let cell = self.cell(CellName::Operand { op, num });
        self.groups.leave(cell);
        self.groups.join(cell, head);
    }

    /// Takes an operand away; its cell serves the next operand or value. Takes constant time, and no memory.
    pub fn remove(&mut self, op: u64, num: u32)
        requires { Has self.old (Operand op num) }
        ensures operands { ChangesOperand self.old self.new op num None }
        ensures room { Takes self.new self.old }
    {
        let cell = self.cell(CellName::Operand { op, num });
        self.groups.leave(cell);
        self.groups.join(cell, 0);
        self.index.remove(cell);
        self.cells[cell as usize] = None;
    }

    /// Takes away a value that nothing uses; its cell serves the next operand or value. Takes constant time.
    pub fn undefine(&mut self, value: Definition)
        requires there { Has self.old (Value value) }
        requires unused { (n k : ℕ) → Links self.old n k value → ⊥ }
        ensures values { ChangesValue self.old self.new value false }
        ensures room { Takes self.new self.old }
    {
        let cell = self.cell(CellName::Value(value));
        self.groups.join(cell, 0);
        self.index.remove(cell);
        self.cells[cell as usize] = None;
    }

    /// The uses of a value, each once; one that is not defined has none. Takes constant time, and no memory.
    pub fn uses_of(&self, value: Definition) -> Uses<'_>
        ensures { (u : Operands) (d : Values) → AreUses self.now u d → AreUsesOf u value result }
    {
        match self.find(CellName::Value(value)) {
            Some(cell) => Uses::of(self.cells.as_slice(), self.groups.members(cell)),
            None => Uses::none(),
        }
    }
}

/// Lets the index have a slot for one cell more.
fn grow_index(index: &mut NameIndex, alloc: Global, cells: usize) -> Result<(), NoMemory>
    requires { cells ≤ length index.old }
    ensures same { (s : ℕ) → name_at index.new s ≡ name_at index.old s }
    ensures room { length index.old ≤ length index.new }
    ensures few { cells < 2 ^ 31 }
    ensures ok { OnOk result (cells < length index.new) }
{
    if cells < index.size() as usize {
        return Ok(());
    }
    index.grow(alloc)
}

/// A cell that stands for nothing.
fn loose_cell(groups: &Groups) -> u32
    requires head { slice_index groups.now 0 ≡ 0 }
    requires some { (c : ℕ) × IsLoose groups.now c }
    ensures { IsLoose groups.now result }
{
    match next_loose(groups) {
        Some(cell) => cell,
        None => unreachable!(),
    }
}

/// A cell that stands for nothing, or `None` where there is none but the first.
fn next_loose(groups: &Groups) -> Option<u32>
    requires some { 0 < length groups.now }
    requires head { slice_index groups.now 0 ≡ 0 }
    ensures found { IfSome result (λ c. IsLoose groups.now c) }
    ensures none { IfNone result ((c : ℕ) → IsLoose groups.now c → ⊥) }
{
    let mut members = groups.members(0);
    members.advance()
}

/// Whether a group has a member besides its head.
fn has_members(groups: &Groups, head: u32) -> bool
    requires head_in { head < length groups.now }
    requires is_head { slice_index groups.now head ≡ head }
    ensures yes { OnTrue result ((c : ℕ) × HasOwner groups.now c head) }
    ensures no { OnFalse result (AreMembers groups.now head []) }
{
    let mut members = groups.members(head);
    match members.advance() {
        Some(_member) => true,
        None => false,
    }
}
