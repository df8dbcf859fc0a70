//! What the replies of a transaction rest on.

ghost use Rattle.spe_store.specs.Store.{IfTold};
ghost use Rattle.spe_session.specs.Transaction.{RestsOn};

use crate::beginning::Beginning;
use crate::pager::Pager;
use spe_disk::Disk;
use spe_space::Pages;
use spe_store::Opening;

impl<D: Disk, N: Opening, K: Beginning> Pager<D, N, K> {
    /// Where the disk tells its files, the pages after all commits are served for what these leave of the
    /// database of the opening, and all that the transaction was given is of them.
    ///
    /// It does nothing: its contract is a law, for a caller that calls it where it needs it.
    pub(crate) fn rests(&self)
        ensures { IfTold K.begun.told (λ _. RestsOn N.opened K.begun.entries (⟦<Pager<D, N, K> as Pages>⟧.seen self.now)) }
    {
        self.store.keeps();
    }
}
