//! Laws of changes.

ghost use Rattle.spe_frame.specs.Chain.{ChainStays};
ghost use Rattle.spe_frame.specs.Framed.{FrameIsFramed, FrameStays, FramedIsFrame};
ghost use Rattle.spe_frame.specs.Header.{HeaderStays, ValidIsCounted};
ghost use Rattle.spe_frame.specs.Laws.{ForestStays, HeldApart, HeldNone, ReadsShift, ShiftsAlike, ShiftsBeside, ShiftsBoth, ShiftsNone, SparesAlike, SparesBeside, SparesBoth, SparesMore};
ghost use Rattle.spe_frame.specs.Pick.{PicksTree, PlantsTree};

use spe_space::Pages;

/// Where nothing changes, nothing is changed, and gets of pages at hand are no change. Changes follow one
/// another, and after them a call that fails; they are the same beside more pages, in any order of them, and
/// with room for more allocations.
pub fn shifts_law<S: Pages>(_space: &S)
    ensures idle { ShiftsNone S.Pages }
    ensures reads { ReadsShift S.Pages }
    ensures both { ShiftsBoth S.Pages }
    ensures spares { SparesBoth S.Pages }
    ensures beside { ShiftsBeside S.Pages }
    ensures alike { ShiftsAlike S.Pages }
    ensures spares_beside { SparesBeside S.Pages }
    ensures spares_alike { SparesAlike S.Pages }
    ensures spares_more { SparesMore S.Pages }
    ensures apart { HeldApart S.Pages }
    ensures none { HeldNone S.Pages }
{}

/// A change leaves all trees and chains that have none of its pages. A tree is picked from a forest and
/// planted again.
pub fn forest_law<S: Pages>(_space: &S)
    ensures stays { ForestStays S.Pages }
    ensures picks { PicksTree S.Pages }
    ensures plants { PlantsTree S.Pages }
    ensures chain { ChainStays S.Pages }
{}

/// Where only its counters change, the header of page 1 is legal again, and its page count as valid as
/// it was.
pub fn header_law()
    ensures stays { HeaderStays }
    ensures counted { ValidIsCounted }
{}

/// Framed pages of which one tree was changed into a tree are framed again for the same roots. For a
/// space whose free pages are those of the lists that page 1 names, this is to be framed by these lists.
pub fn frame_law<S: Pages>(_space: &S)
    ensures stays { FrameStays S.Pages }
    ensures framed { FrameIsFramed S.Pages }
    ensures frame { FramedIsFrame S.Pages }
{}
