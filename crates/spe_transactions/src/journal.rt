//! A transaction begins its journal, and saves pages in it.

ghost use Rattle.spe_transactions.specs.Steps.{AgainWorks, HeadWorks, MadeWorks, RecordWorks};

/// A journal that is absent is made: it then has no bytes, and no recovered page changes.
pub fn journal_made()
    ensures work { MadeWorks }
{}

/// The head of a journal is written where the journal has no bytes: whole or torn, it changes no
/// recovered page.
///
/// A journal of which a stop left less than a head is not such a one, as it has bytes: recovery cuts it.
pub fn head_written()
    ensures work { HeadWorks }
{}

/// A record of a page, as the file has it, is appended to a journal that has its head: whole or torn, it
/// changes no recovered page.
///
/// No transaction may have journalled the page before. Then none has written it, so that the file has
/// the page as it is recovered.
pub fn page_journalled()
    ensures work { RecordWorks }
{}

/// A page that its transaction has journalled needs no operation to be journalled again: what is listed
/// as journalled stays, and is the recovered page.
pub fn page_journalled_again()
    ensures work { AgainWorks }
{}
