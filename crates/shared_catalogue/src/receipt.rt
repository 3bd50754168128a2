//! What stations were answered.

ghost use Rattle.std.specs.Prelude.{◌≡◌, ◌↔◌, [], ◌∷◌, ◌++◌, IsTrue, IfOk, OnOk, OnErr};
ghost use Rattle.shared_catalogue.specs.OwnCalls.{receipt_of, of_station};

use catalogue_core::{Answer, Command, Entry};
use std::alloc::{AllocError, Global};
use std::marker::Model;

/// A command that a station gave, and what it was answered.
#[derive(Debug, PartialEq, Eq, Drop)]
pub struct Receipt {
    /// The command as it was given.
    pub command: Command,
    /// The answer as it was given.
    pub answer: Answer,
}

impl Receipt {
    /// The same receipt once more, or an error where memory is refused.
    pub fn copy(&self, alloc: Global) -> Result<Receipt, AllocError>
        ensures value { IfOk result (λ copy. copy ≡ self.now) }
    {
        let command = self.command.copy(alloc)?;
        let answer = self.answer.copy(alloc)?;
        Ok(Receipt { command, answer })
    }

    // Whether it has an entry's command and answer.
    fn is_of(&self, entry: &Entry) -> bool
        ensures value { IsTrue result ↔ (receipt_of entry.now ≡ self.now) }
    {
        self.command.is_same(&entry.command) && self.answer.is_same(&entry.answer)
    }
}

/// The receipts of one station, in the order of its commands. Contracts see them as their list.
#[derive(Debug, Drop)]
pub struct Receipts {
    receipts: Vec<Receipt>,
}

impl Model for Receipts {
    ghost use Rattle.std.specs.Prelude.{List};
    ghost use Rattle.shared_catalogue.specs.declared.receipt.Receipt.{Receipt};

    ghost Value = { List Receipt };

    ghost view = { λ r. r.receipts.items };
}

impl Receipts {
    /// No receipts. It takes no memory.
    pub fn new(alloc: Global) -> Receipts
        ensures value { result ≡ [] }
    {
        Receipts {
            receipts: Vec::new(alloc),
        }
    }

    /// Adds a receipt after the others.
    ///
    /// An `Err` says that there was no memory. It changes nothing.
    pub fn push(&mut self, receipt: Receipt) -> Result<(), AllocError>
        ensures ok { OnOk result (self.new ≡ self.old ++ receipt ∷ []) }
        ensures err { OnErr result (self.new ≡ self.old) }
    {
        self.receipts.reserve(1)?;
        self.receipts.push_reserved(receipt);
        Ok(())
    }

    /// The receipts in order.
    pub fn as_slice(&self) -> &[Receipt]
        ensures value { result.now ≡ self.now }
    {
        self.receipts.as_slice()
    }

    /// The same receipts once more, or an error where memory is refused.
    pub fn copy(&self, alloc: Global) -> Result<Receipts, AllocError>
        ensures value { IfOk result (λ copy. copy ≡ self.now) }
    {
        let mut copy = Receipts::new(alloc);
        for receipt in self.as_slice() {
            copy.push(receipt.copy(alloc)?)?;
        }
        Ok(copy)
    }
}

impl PartialEq for Receipts {
    ghost use Rattle.std.specs.Cmp.Lexicographic.{pointwise, lists_per};
    ghost use Rattle.shared_catalogue.specs.contracts.receipt.ReceiptPartialEq.TheImpl.{ghosts as receipt_compares};
    ghost use Rattle.shared_catalogue.specs.contracts.receipt.ReceiptPartialEq.TheImpl.Laws.{laws-law as receipt_partial};

    ghost eq = { pointwise receipt_compares.eq };

    ghost laws = { lists_per receipt_partial };

    fn eq(&self, other: &Receipts) -> bool {
        self.as_slice() == other.as_slice()
    }
}

impl Eq for Receipts {
    ghost use Rattle.std.specs.Cmp.Lexicographic.{lists_equiv};
    ghost use Rattle.shared_catalogue.specs.contracts.receipt.ReceiptEq.TheImpl.Laws.{laws-law as receipt_equivalence};

    ghost laws = { lists_equiv receipt_equivalence };
}

/// Whether these are the station's commands and answers in the journal, in order, each once.
pub(crate) fn are_receipts_of(station: u32, receipts: &[Receipt], journal: &[Entry]) -> bool
    ensures value { IsTrue result ↔ (of_station journal.now station ≡ receipts.now) }
{
    let mut remaining = receipts;
    for entry in journal {
        if entry.station != station {
            continue;
        }
        let Some((first, others)) = remaining.split_first() else {
            return false;
        };
        if !first.is_of(entry) {
            return false;
        }
        remaining = others;
    }
    remaining.is_empty()
}
