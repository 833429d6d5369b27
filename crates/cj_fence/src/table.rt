ghost use Rattle.std.specs.Prelude.{◌≡◌, [], ◌++◌, IfOk, IfErr, OnOk};
ghost use Rattle.std.specs.Option.{option_copied};
ghost use Rattle.cj_base.specs.declared.refusal.Refusal.TheVariants.{OutOfMemory};
ghost use Rattle.cj_fence.specs.Tables.{find, without, put};

use crate::texts::is_same;
use cj_base::{Refusal, Text, TryCopy, copy_all};
use std::alloc::Global;
use std::marker::Model;

/// An object under its name, which has the namespace in it.
#[derive(Drop)]
pub struct Row<X> {
    pub name: Text,
    pub object: X,
}

impl<X: TryCopy + Drop> TryCopy for Row<X> {
    fn try_copy(&self, alloc: Global) -> Result<Row<X>, Refusal> {
        Ok(Row {
            name: self.name.try_copy(alloc)?,
            object: self.object.try_copy(alloc)?,
        })
    }
}

/// Objects of a kind by their names. Contracts see the list of rows.
pub struct Table<X> {
    rows: Vec<Row<X>>,
}

// A function of its own, so that whoever gives one up makes one call and not one for each part.
impl<X: Drop> Drop for Table<X> {
    fn drop(self) {
        let Table { rows: _ } = self;
    }
}

impl<X> Model for Table<X> {
    ghost use Rattle.std.specs.Prelude.{List};
    ghost use Rattle.cj_fence.specs.declared.table.Row.{Row};

    ghost Value = { List (Row X) };

    ghost view = { λ t. t.rows.items };
}

impl<X> Table<X> {
    /// No object.
    pub fn new(alloc: Global) -> Table<X>
        ensures { result ≡ [] }
    {
        Table {
            rows: Vec::new(alloc),
        }
    }

    /// The table of these rows, which it takes over.
    pub fn from_rows(rows: Vec<Row<X>>) -> Table<X>
        ensures { result ≡ rows.items }
    {
        Table { rows }
    }

    /// The rows in their order.
    pub fn as_slice(&self) -> &[Row<X>]
        ensures { result.now ≡ self.now }
    {
        self.rows.as_slice()
    }

    /// The object of the name, if one stands.
    pub fn find(&self, name: &Text) -> Option<&X>
        ensures { option_copied result ≡ find name.now self.now }
    {
        found_in(self.as_slice(), name)
    }
}

impl<X: TryCopy + Drop> Table<X> {
    /// The table without the object of the name.
    pub fn without(&self, alloc: Global, name: &Text) -> Result<Table<X>, Refusal>
        ensures ok { IfOk result (λ t. t ≡ without name.now self.now) }
        ensures err { IfErr result (λ e. e ≡ OutOfMemory) }
    {
        let mut rows = Vec::new(alloc);
        others(alloc, self.as_slice(), name, &mut rows)?;
        Ok(Table { rows })
    }

    /// The table with the object under the name, in place of what stood there.
    #[tactic(auto, unfolding(crate::specs::Tables::put))]
    pub fn put(&self, alloc: Global, name: &Text, object: X) -> Result<Table<X>, Refusal>
        ensures ok { IfOk result (λ t. t ≡ put name.now object self.now) }
        ensures err { IfErr result (λ e. e ≡ OutOfMemory) }
    {
        let mut rows = Vec::new(alloc);
        let name_kept = name.try_copy(alloc)?;
        let row = Row {
            name: name_kept,
            object,
        };
        rows.push(row).map_err(|_| Refusal::OutOfMemory)?;
        others(alloc, self.as_slice(), name, &mut rows)?;
        Ok(Table { rows })
    }
}

// The object of the name, if one stands among these.
fn found_in<'a, X>(rows: &'a [Row<X>], name: &Text) -> Option<&'a X>
    ensures { option_copied result ≡ find name.now rows.now }
{
    for row in rows {
        if is_same(&row.name, name) {
            return Some(&row.object);
        }
    }
    None
}

// Puts copies of all but the rows of the name behind the others.
fn others<X: TryCopy + Drop>(
    alloc: Global,
    rows: &[Row<X>],
    name: &Text,
    kept: &mut Vec<Row<X>>,
) -> Result<(), Refusal>
    ensures ok { OnOk result (kept.new.items ≡ kept.old.items ++ without name.now rows.now) }
    ensures err { IfErr result (λ e. e ≡ OutOfMemory) }
{
    for row in rows {
        if !is_same(&row.name, name) {
            kept.push(row.try_copy(alloc)?)
                .map_err(|_| Refusal::OutOfMemory)?;
        }
    }
    Ok(())
}

impl<X: TryCopy + Drop> TryCopy for Table<X> {
    fn try_copy(&self, alloc: Global) -> Result<Table<X>, Refusal> {
        Ok(Table {
            rows: copy_all(alloc, self.rows.as_slice())?,
        })
    }
}
