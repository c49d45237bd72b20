// The report of a book that is closed.
ghost use Rattle.std.specs.Prelude.{◌≡◌, ◌≢◌, ◌+◌, ◌%◌, ◌^◌, ℕ, IfOk, OnOk, sum_by};
ghost use Rattle.journal_book.specs.View.{entries};
ghost use Rattle.journal_book.specs.Rows.{made_row, row_of, entries_of, entries_by, counted_of};

use crate::entry::JournalEntry;
use crate::seat::Seat;
use paged_list::Pages;
use std::alloc::{AllocError, Global};
use std::collections::BTreeMap;
use std::sync::ledger::Ledger;

/// How many entries of the journal are a tenant's, and how many steps were made from those of its
/// seats that came back.
#[derive(Clone, Copy, Debug, PartialEq, Eq)]
pub struct Row {
    pub journalled: u64,
    pub made: u64,
}

/// A row for each tenant of the journal or of a seat, by their numbers.
#[derive(Drop)]
pub struct Report {
    pub rows: BTreeMap<u64, Row>,
}

impl Report {
    // It takes about the logarithm of the number of tenants for each entry and each seat, and fails
    // only for want of memory, or where a count does not fit 64 bits.
    pub(crate) fn of<L: Ledger>(
        alloc: Global,
        journal: &Pages<JournalEntry>,
        seats: &[Seat<L>],
    ) -> Result<Report, AllocError>
        ensures { IfOk result (λ report. (t : ℕ) → row_of t report
            ≡ made_row (entries_of t (entries journal.now.items))
            (counted_of t seats.now % 2 ^ 64)) }
    {
        let mut report = Report {
            rows: BTreeMap::new(alloc),
        };
        report.add_entries(journal)?;
        report.add_seats(seats)?;
        Ok(report)
    }

    fn add_entries(&mut self, journal: &Pages<JournalEntry>) -> Result<(), AllocError>
        requires { (t : ℕ) → row_of t self.old ≡ made_row 0 0 }
        ensures { OnOk result ((t : ℕ) → row_of t self.new
            ≡ made_row (entries_of t (entries journal.now.items)) 0) }
    {
        let (full, last) = journal.pages();
        self.add_pages(full)?;
        self.add_page(last)?;
        Ok(())
    }

    fn add_pages(&mut self, pages: &[Vec<JournalEntry>]) -> Result<(), AllocError>
        ensures { OnOk result ((t : ℕ) → row_of t self.new
            ≡ made_row ((row_of t self.old).journalled
            + sum_by (λ page. entries_by t page.items) pages.now) (row_of t self.old).made) }
    {
        for i in 0..pages.len() {
            self.add_page(pages[i].as_slice())?;
        }
        Ok(())
    }

    fn add_page(&mut self, page: &[JournalEntry]) -> Result<(), AllocError>
        ensures { OnOk result ((t : ℕ) → row_of t self.new
            ≡ made_row ((row_of t self.old).journalled + entries_by t page.now)
            (row_of t self.old).made) }
    {
        for i in 0..page.len() {
            let tenant = page[i].tenant();
            let before = self.row(tenant);
            let Some(journalled) = before.journalled.checked_add(1) else {
                return Err(AllocError);
            };
            let row = Row {
                journalled,
                made: before.made,
            };
            self.put(tenant, row)?;
        }
        Ok(())
    }

    // The sums wrap. Of seats of one book none does: its ledger holds their sum.
    fn add_seats<L: Ledger>(&mut self, seats: &[Seat<L>]) -> Result<(), AllocError>
        requires { (t : ℕ) → (row_of t self.old).made ≡ 0 }
        ensures { OnOk result ((t : ℕ) → row_of t self.new
            ≡ made_row (row_of t self.old).journalled (counted_of t seats.now % 2 ^ 64)) }
    {
        for i in 0..seats.len() {
            let tenant = seats[i].tenant();
            let before = self.row(tenant);
            let row = Row {
                journalled: before.journalled,
                made: before.made.wrapping_add(seats[i].made()),
            };
            self.put(tenant, row)?;
        }
        Ok(())
    }

    fn row(&self, tenant: u64) -> Row
        ensures { result ≡ row_of tenant self.now }
    {
        self.rows.get(&tenant).copied().unwrap_or(Row {
            journalled: 0,
            made: 0,
        })
    }

    fn put(&mut self, tenant: u64, row: Row) -> Result<(), AllocError>
        ensures put { OnOk result (row_of tenant self.new ≡ row) }
        ensures others { OnOk result ((t : ℕ) → t ≢ tenant
            → row_of t self.new ≡ row_of t self.old) }
    {
        self.rows.insert(tenant, row)?;
        Ok(())
    }
}
