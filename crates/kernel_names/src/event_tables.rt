//! The tables of names of all events' fields, by the numbers of the events.
ghost use Rattle.std.specs.Prelude.{◌≡◌, map, IfOk};
ghost use Rattle.std.specs.Option.{option_map};
ghost use Rattle.event_fields.specs.Lines.{field_seen};
ghost use Rattle.kernel_names.specs.FieldTables.{table_seen};
ghost use Rattle.kernel_names.specs.EventTables.{is_number, table_by, tables_seen};

use crate::calls::call_text;
use crate::tables::{FieldTable, named_table};
use event_fields::{EventFields, Field, FieldList, Kind};
use std::alloc::{AllocError, Global};
use trace_dat::kernel_texts::{EventName, EventNames};
use trace_model::NoMemory;

/// Whether the value of a field is one number.
fn is_number(kind: Kind) -> bool
    ensures { result ≡ is_number kind }
{
    matches!(kind, Kind::Number(_))
}

/// The table of a field, by the calls in the print format of its event: of a field that is shown and is one number.
fn table_for(alloc: Global, calls: &[u8], field: &Field) -> Result<Option<FieldTable>, NoMemory>
    ensures { IfOk result (λ table. option_map table_seen table ≡ table_by calls.now (field_seen field.now)) }
{
    if !field.is_shown() || !is_number(field.layout.kind) {
        return Ok(None);
    }
    named_table(alloc, calls, &field.name)
}

/// The tables of fields, in their order.
fn tables_for(
    alloc: Global,
    calls: &[u8],
    fields: &[Field],
) -> Result<Vec<Option<FieldTable>>, NoMemory>
    ensures { IfOk result (λ tables. tables_seen tables.items ≡ map (table_by calls.now) (map field_seen fields.now)) }
{
    let mut tables = Vec::new(alloc);
    for field in fields {
        tables.push(table_for(alloc, calls, field)?)?;
    }
    Ok(tables)
}

/// The tables of names of all events' fields, by the numbers of the events.
#[derive(Debug, Drop)]
pub struct EventTables {
    /// For each number up to that of the last event whose format has a call: the tables of its fields, if its format
    /// has one.
    lists: Vec<Vec<Option<FieldTable>>>,
}

impl EventTables {
    ghost use Rattle.std.specs.Prelude.{◌≡◌, ◌<◌, ◌≤◌, ◌+◌, ℕ, map, length, IfOk, OnOk};
    ghost use Rattle.std.specs.Option.{option_map};
    ghost use Rattle.trace_dat.specs.kernel_texts.Names.{event_seen, events_of};
    ghost use Rattle.event_fields.specs.Events.{list_seen, HasFields};
    ghost use Rattle.event_fields.specs.Lines.{field_seen};
    ghost use Rattle.kernel_names.specs.EventTables.{tables_known, tables_seen, AreTablesOf};
    ghost use Rattle.kernel_names.specs.EventTables.{AreTablesOfEvent, HasTables};

    /// The tables of the fields of all events that have a name.
    pub fn new(
        alloc: Global,
        names: &EventNames,
        fields: &EventFields,
    ) -> Result<EventTables, NoMemory>
        requires { HasFields fields.now (events_of names.now) }
        ensures { IfOk result (λ tables. HasTables tables (events_of names.now)) }
    {
        let mut tables = EventTables {
            lists: Vec::new(alloc),
        };
        let mut from = 0;
        while let Some((id, event)) = names.next_event(from) {
            tables.put_event(alloc, id, event, fields.of_event(id))?;
            from = u32::from(id) + 1;
        }
        Ok(tables)
    }

    /// Puts the tables of an event's fields, if these are known.
    fn put_event(
        &mut self,
        alloc: Global,
        id: u16,
        event: EventName<'_>,
        list: Option<&FieldList>,
    ) -> Result<(), NoMemory>
        requires { length self.old.lists.items ≤ id }
        ensures known { OnOk result (AreTablesOfEvent (tables_known self.new id) (event_seen event.entry)
            (option_map (λ list. list_seen list.now) list.entry)) }
        ensures kept { OnOk result ((n : ℕ) → n < id → tables_known self.new n ≡ tables_known self.old n) }
        ensures rising { OnOk result (length self.new.lists.items ≤ id + 1) }
    {
        match list {
            Some(FieldList::Known(fields)) => self.put(alloc, id, event.format, fields),
            _ => Ok(()),
        }
    }

    /// Puts the tables of an event's fields, if its format has a call.
    fn put(
        &mut self,
        alloc: Global,
        id: u16,
        format: &[u8],
        fields: &[Field],
    ) -> Result<(), NoMemory>
        requires { length self.old.lists.items ≤ id }
        ensures known { OnOk result (AreTablesOf (tables_known self.new id) format.now (map field_seen fields.now)) }
        ensures kept { OnOk result ((n : ℕ) → n < id → tables_known self.new n ≡ tables_known self.old n) }
        ensures rising { OnOk result (length self.new.lists.items ≤ id + 1) }
    {
        let calls = call_text(format);
        if calls.is_empty() {
            return Ok(());
        }
        let tables = tables_for(alloc, calls, fields)?;
        self.fill(alloc, usize::from(id))?;
        self.lists.push(tables)?;
        Ok(())
    }

    /// Puts no tables for the numbers below this one that have no place yet.
    fn fill(&mut self, alloc: Global, end: usize) -> Result<(), AllocError>
        requires { length self.old.lists.items ≤ end }
        ensures kept { OnOk result ((n : ℕ) → tables_known self.new n ≡ tables_known self.old n) }
        ensures filled { OnOk result (length self.new.lists.items ≡ end) }
    {
        while self.lists.len() < end {
            self.lists.push(Vec::new(alloc))?;
        }
        Ok(())
    }

    /// The tables of the fields of this event, each at the place of its field; a field that has no place here has none.
    pub fn of_event(&self, id: u16) -> &[Option<FieldTable>]
        ensures { tables_seen result.now ≡ tables_known self.now id }
    {
        match self.lists.get(usize::from(id)) {
            Some(tables) => tables,
            None => &[],
        }
    }
}
