//! What a session does with each command.
ghost use Rattle.std.specs.Prelude.{◌≡◌, IfOk, vec_items, position};
ghost use Rattle.sorts.specs.Offered.{offered_column, offered_columns, words};
ghost use Rattle.std.specs.Option.{option_map};
ghost use Rattle.model.specs.Banks.{bank};
ghost use Rattle.banks.specs.Sheets.{store, relation};
ghost use Rattle.commands.specs.Forms.{asked};
ghost use Rattle.session.specs.Callers.{caller, stored, drafted, begun, fresh_caller, is_named, Idle, Reached, Replies, reply};
ghost use Rattle.session.specs.Callers.{table_reply, column_reply, dependency_reply, seal_reply, read_reply, bank_reply, rows_reply};
ghost use Rattle.session.specs.Callers.{answer, bank_answer};
ghost use Rattle.session.specs.Stopped.{ended};

use crate::rooms::{kind_number, room_of};
use crate::stops::{Stop, answered};
use crate::tables::{Draft, Session, Table};
use banks::Sheet;
use cells::copied_rows;
use commands::{Command, Storage};
use outcomes::Outcome;
use sorts::{Named, NewColumn, NewTable};
use std::alloc::{AllocError, Global};

// The place of the first table with that name: one expression, as the place of a column is one over columns.
fn place_of(tables: &[Table], name: &[u8]) -> Option<usize>
    ensures { result ≡ position (λ t. is_named name.now (stored t)) tables.now }
{
    tables.iter().position(|table| table.is_named(name))
}

// The bank of stored rows, in no more than so many bytes.
fn bank_of(heap: Global, sheet: &Sheet, size: usize) -> Result<Outcome, Stop>
    ensures { IfOk (ended result) (λ o. answer o ≡ bank_answer size (bank (store sheet.now).sort.columns (relation sheet.now))) }
{
    let mut bytes = vec![in heap; 0u8; size]?;
    let n = sheet.write_bank(heap, &mut bytes)?;
    bytes.truncate(n);
    Ok(Outcome::Bank(bytes))
}

impl Draft {
    // The table that a draft is sealed into, and its room.
    fn seal(self, heap: Global) -> (Table, usize)
        ensures { (stored result.0 ≡ begun (drafted self)) × (result.1 ≡ (begun (drafted self)).room) }
    {
        let Draft {
            table: NewTable { name, sort, room },
            storage,
        } = self;
        let sort = sort.seal();
        let room = room_of(storage, room, sort.columns()).min(128);
        let sheet = Sheet::empty(heap, kind_number(storage), sort, room);
        (Table { name, sheet }, room)
    }
}

impl Session {
    // A caller without tables.
    pub fn new(heap: Global) -> Session
        ensures { caller result ≡ fresh_caller }
    {
        Session {
            tables: Vec::new(heap),
            draft: None,
        }
    }

    // No table is under description.
    fn idle(&self) -> Result<(), Outcome>
        ensures { Idle (caller self.now) result }
    {
        match self.draft {
            Some(_) => Err(Outcome::OutOfTurn),
            None => Ok(()),
        }
    }

    // The place of the table of that name, in an idle session.
    fn place(&self, name: &[u8]) -> Result<usize, Outcome>
        ensures { Reached self.now name.now result }
    {
        self.idle()?;
        place_of(&self.tables, name).ok_or(Outcome::NoTable)
    }

    fn table(
        &mut self,
        heap: Global,
        name: &[u8],
        storage: Storage,
        room: usize,
        columns: &[NewColumn<'_>],
    ) -> Result<Outcome, Stop>
        ensures { Replies (caller self.old) (table_reply (caller self.old) name.now storage room (offered_columns columns.now)) (ended result) (caller self.new) }
    {
        self.idle()?;
        let table = sorts::describe(heap, &self.tables, name, columns, room)?;
        self.draft = Some(Draft { table, storage });
        Ok(Outcome::Accepted)
    }

    fn column(&mut self, heap: Global, column: NewColumn<'_>) -> Result<Outcome, Stop>
        ensures { Replies (caller self.old) (column_reply (caller self.old) (offered_column column.entry)) (ended result) (caller self.new) }
    {
        let draft = self.draft.as_mut().ok_or(Outcome::OutOfTurn)?;
        draft.table.sort.add_column(heap, column)?;
        Ok(Outcome::Accepted)
    }

    fn dependency<'a>(
        &mut self,
        heap: Global,
        left: &[&'a [u8]],
        right: &[&'a [u8]],
    ) -> Result<Outcome, Stop>
        ensures { Replies (caller self.old) (dependency_reply (caller self.old) (words left.now) (words right.now)) (ended result) (caller self.new) }
    {
        let draft = self.draft.as_mut().ok_or(Outcome::OutOfTurn)?;
        draft.table.sort.add_dependency(heap, left, right)?;
        Ok(Outcome::Accepted)
    }

    fn seal(&mut self, heap: Global) -> Result<Outcome, Stop>
        ensures { Replies (caller self.old) (seal_reply (caller self.old)) (ended result) (caller self.new) }
    {
        self.tables.reserve(1)?;
        let draft = self.draft.take().ok_or(Outcome::OutOfTurn)?;
        let (table, room) = draft.seal(heap);
        self.tables.push_reserved(table);
        Ok(Outcome::Sealed(room))
    }

    fn rows(&self, heap: Global, name: &[u8]) -> Result<Outcome, Stop>
        ensures { Replies (caller self.now) (rows_reply (caller self.now) name.now) (ended result) (caller self.now) }
    {
        let i = self.place(name)?;
        let rows = copied_rows(heap, self.tables[i].sheet.rows())?;
        Ok(Outcome::Rows(rows))
    }

    // Reads a bank into a table, where there is one.
    fn load(&mut self, heap: Global, name: &[u8], bytes: Option<Vec<u8>>) -> Result<Outcome, Stop>
        ensures { Replies (caller self.old) (read_reply (caller self.old) name.now (option_map vec_items bytes)) (ended result) (caller self.new) }
    {
        let i = self.place(name)?;
        let bytes = bytes.ok_or(Outcome::NoFile)?;
        self.tables[i].sheet.read_bank(heap, &bytes)?;
        Ok(Outcome::Accepted)
    }

    fn try_bank(&self, heap: Global, name: &[u8], size: usize) -> Result<Outcome, Stop>
        ensures { Replies (caller self.now) (bank_reply (caller self.now) name.now size) (ended result) (caller self.now) }
    {
        let i = self.place(name)?;
        bank_of(heap, &self.tables[i].sheet, size)
    }

    // The bank of a table, in no more than so many bytes.
    pub fn bank(&self, heap: Global, name: &[u8], size: usize) -> Result<Outcome, AllocError>
        ensures { Replies (caller self.now) (bank_reply (caller self.now) name.now size) result (caller self.now) }
    {
        answered(self.try_bank(heap, name, size))
    }

    // A bank from a file, where one was found.
    pub fn read(
        &mut self,
        heap: Global,
        name: &[u8],
        file: Option<Vec<u8>>,
    ) -> Result<Outcome, AllocError>
        ensures { Replies (caller self.old) (read_reply (caller self.old) name.now (option_map vec_items file)) result (caller self.new) }
    {
        answered(self.load(heap, name, file))
    }

    fn try_perform(&mut self, heap: Global, command: Command<'_>) -> Result<Outcome, Stop>
        ensures { Replies (caller self.old) (reply (caller self.old) (asked command.entry)) (ended result) (caller self.new) }
    {
        match command {
            Command::Help => Ok(Outcome::Help),
            Command::Fresh => {
                *self = Session::new(heap);
                Ok(Outcome::Fresh)
            }
            Command::Table {
                name,
                storage,
                room,
                columns,
            } => self.table(heap, name, storage, room as usize, &columns),
            Command::Column { column } => self.column(heap, column),
            Command::Dep { left, right } => self.dependency(heap, &left, &right),
            Command::Seal => self.seal(heap),
            Command::Load { name, bytes } => self.load(heap, name, Some(bytes)),
            Command::Bank { name, size } => self.try_bank(heap, name, size as usize),
            Command::Rows { name } => self.rows(heap, name),
            Command::Read { .. }
            | Command::Write { .. }
            | Command::Try { .. }
            | Command::Put { .. } => Ok(Outcome::BadLine),
        }
    }

    // Does what the command asks for, and answers what comes of it.
    pub fn perform(&mut self, heap: Global, command: Command<'_>) -> Result<Outcome, AllocError>
        ensures { Replies (caller self.old) (reply (caller self.old) (asked command.entry)) result (caller self.new) }
    {
        answered(self.try_perform(heap, command))
    }
}
