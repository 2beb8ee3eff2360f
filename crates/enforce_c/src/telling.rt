// The rows of a script's paths.

ghost use Rattle.std.specs.Prelude.{◌≡◌, length, IfOk, OnOk};
ghost use Rattle.enforce_c.specs.Rows.{with_row, with_bytes, with_key, with_slots, with_keys, with_fact, with_facts, with_path, with_paths, rows_of, row_of};

use crate::rows::{
    FACT_AGE, FACT_CHOICE, FACT_CHOICE_KEY, FACT_CHOICE_SLOT, FACT_FORM, FACT_HASH, FACT_IS,
    FACT_KEY, FACT_LOCK, FACT_SIGNED, FACT_SIZE, FACT_TRUTH, FactRow, PathRow,
};
use facts::{Fact, KeySource, Stated};
use paths::Path;
use std::alloc::{AllocError, Global};
use std::marker::Model;

/// Rows of paths, rows of their facts, and the facts' bytes. A contract sees it as the three lists.
#[derive(Drop)]
pub struct Rows {
    pub(crate) paths: Vec<PathRow>,
    pub(crate) facts: Vec<FactRow>,
    pub(crate) bytes: Vec<u8>,
}

impl Model for Rows {
    ghost use Rattle.enforce_c.specs.Rows.{RowLists};

    ghost Value = { RowLists };

    ghost view = { λ r. record { paths = r.paths.items; facts = r.facts.items; bytes = r.bytes.items } };
}

// The row of a path whose facts have the rows between two numbers.
fn path_row(path: &Path, first_fact: usize, end: usize) -> PathRow
    ensures { result ≡ row_of path.now first_fact end }
{
    PathRow {
        arity: path.arity,
        counted: path.ops,
        height: path.height,
        first_fact,
        facts: end.saturating_sub(first_fact),
        lock: path.lock.unwrap_or(0),
        age: path.age.map(u32::from).unwrap_or(0),
        has_lock: path.lock.is_some(),
        has_age: path.age.is_some(),
    }
}

impl Rows {
    // One more row, without bytes.
    fn push_row(&mut self, row: FactRow) -> Result<(), AllocError>
        ensures { OnOk result (self.new ≡ with_row row self.old) }
    {
        self.facts.push(row)?;
        Ok(())
    }

    // One more row, with its bytes.
    fn push_bytes(&mut self, row: FactRow, bytes: &[u8]) -> Result<(), AllocError>
        ensures { OnOk result (self.new ≡ with_bytes row bytes.now self.old) }
    {
        let mut row = row;
        row.bytes_at = self.bytes.len();
        row.bytes_length = bytes.len();
        self.facts.push(row)?;
        self.bytes.extend_from_slice(bytes)?;
        Ok(())
    }

    // One more row, with its key.
    fn push_key(&mut self, row: FactRow, key: &KeySource) -> Result<(), AllocError>
        ensures { OnOk result (self.new ≡ with_key row key.now self.old) }
    {
        match key {
            KeySource::Const(bytes) => self.push_bytes(row, bytes.bytes()),
            KeySource::Slot(slot) => {
                let mut row = row;
                row.key_is_slot = true;
                row.key_slot = *slot;
                self.push_row(row)
            }
        }
    }

    // The slots of a choice.
    fn push_slots(&mut self, holds: bool, slots: &[usize]) -> Result<(), AllocError>
        ensures { OnOk result (self.new ≡ with_slots holds slots.now self.old) }
    {
        for slot in slots {
            self.push_row(FactRow::at_slot(FACT_CHOICE_SLOT, holds, *slot))?;
        }
        Ok(())
    }

    // The keys of a choice.
    fn push_keys(&mut self, holds: bool, keys: &[KeySource]) -> Result<(), AllocError>
        ensures { OnOk result (self.new ≡ with_keys holds keys.now self.old) }
    {
        for key in keys {
            self.push_key(FactRow::blank(FACT_CHOICE_KEY, holds), key)?;
        }
        Ok(())
    }

    // The rows of one more fact.
    #[tactic(auto, unfolding(crate::specs::Rows::with_fact))]
    fn push_fact(&mut self, stated: &Stated) -> Result<(), AllocError>
        ensures { OnOk result (self.new ≡ with_fact stated.now self.old) }
    {
        let holds = stated.holds;
        match &stated.fact {
            Fact::Hash(slot, hash) => {
                self.push_bytes(FactRow::at_slot(FACT_HASH, holds, *slot), hash.bytes())
            }
            Fact::Size(slot, size) => {
                let row = FactRow::at_slot(FACT_SIZE, holds, *slot);
                self.push_row(row.with_number(u64::from(*size)))
            }
            Fact::Truth(slot) => self.push_row(FactRow::at_slot(FACT_TRUTH, holds, *slot)),
            Fact::Is(slot, bytes) => {
                self.push_bytes(FactRow::at_slot(FACT_IS, holds, *slot), bytes.bytes())
            }
            Fact::KeyForm(slot) => self.push_row(FactRow::at_slot(FACT_KEY, holds, *slot)),
            Fact::Form(slot) => self.push_row(FactRow::at_slot(FACT_FORM, holds, *slot)),
            Fact::Token(slot, key) => {
                self.push_key(FactRow::at_slot(FACT_SIGNED, holds, *slot), key)
            }
            Fact::Assigned(slots, keys) => {
                self.push_row(FactRow::blank(FACT_CHOICE, holds))?;
                self.push_slots(holds, slots.values())?;
                self.push_keys(holds, keys.values())
            }
            Fact::Lock(number) => {
                self.push_row(FactRow::blank(FACT_LOCK, holds).with_number(*number))
            }
            Fact::Age(number) => {
                self.push_row(FactRow::blank(FACT_AGE, holds).with_number(u64::from(*number)))
            }
        }
    }

    // The rows of more facts.
    fn push_facts(&mut self, facts: &[Stated]) -> Result<(), AllocError>
        ensures { OnOk result (self.new ≡ with_facts facts.now self.old) }
    {
        for stated in facts {
            self.push_fact(stated)?;
        }
        Ok(())
    }

    // One more path: the rows of its facts, and its own.
    #[tactic(auto, unfolding(crate::specs::Rows::with_path))]
    fn push_path(&mut self, path: &Path) -> Result<(), AllocError>
        ensures { OnOk result (self.new ≡ with_path path.now self.old) }
    {
        let first_fact = self.facts.len();
        self.push_facts(path.facts.values())?;
        let row = path_row(path, first_fact, self.facts.len());
        self.paths.push(row)?;
        Ok(())
    }

    // All paths.
    fn push_paths(&mut self, paths: &[Path]) -> Result<(), AllocError>
        ensures { OnOk result (self.new ≡ with_paths paths.now self.old) }
    {
        for path in paths {
            self.push_path(path)?;
        }
        Ok(())
    }

    /// What C sees of all paths of a script. The only error is that memory ran out.
    pub(crate) fn of(alloc: Global, paths: &[Path]) -> Result<Rows, AllocError>
        ensures { IfOk result (λ r. r ≡ rows_of paths.now) }
    {
        let mut rows = Rows {
            paths: Vec::new(alloc),
            facts: Vec::new(alloc),
            bytes: Vec::new(alloc),
        };
        rows.push_paths(paths)?;
        Ok(rows)
    }
}
