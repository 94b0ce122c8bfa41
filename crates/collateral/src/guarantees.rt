// Guarantees, kind 2: four places for each participant.
ghost use Rattle.std.specs.Prelude.{◌≡◌, ◌==◌};
ghost use Rattle.collateral.specs.Guarantees.{guarantees_added, guarantees_cover, guarantees_taken, guarantees_verdict, no_guarantees, folder_of};
ghost use Rattle.collateral.specs.Runs.{RunsCount};
ghost use Rattle.std.proofs.Common.{rules};
ghost use Rattle.collateral.specs.Covers.{cover_falls};

use super::bounds::{LAST_DAY, MOST, PARTICIPANTS, PLACES, participant_on};
use super::folder::{Folder, Guarantee};
use super::kind::{Cause, Collateral, Short, nothing_there};
use numbering::Participant;

const GUARANTEE: u8 = 2;

#[derive(Clone, Copy, PartialEq, Eq, Debug)]
pub struct Guarantees {
    folders: [Folder; PARTICIPANTS],
}

impl Guarantees {
    // None yet; what becomes of them counts up to each one's last day.
    pub fn new() -> Guarantees
        ensures value { result ≡ no_guarantees }
        ensures runs { RunsCount }
    {
        let empty = Folder {
            places: [Guarantee { last: 0, sum: 0 }; PLACES],
            count: 0,
        };
        Guarantees {
            folders: [empty; PARTICIPANTS],
        }
    }
}

impl Collateral for Guarantees {
    ghost cover = { guarantees_cover };

    ghost known = { λ k. (k == 2) };

    ghost verdict = { guarantees_verdict };

    ghost taken = { guarantees_taken };

    ghost added = { guarantees_added };

    ghost monotone = { λ x p d e h. let f = cover_falls (folder_of x p) d e h in Prim.search rules };

    ghost outside = { Prim.search rules };

    fn knows(&self, kind: u8) -> bool {
        kind == GUARANTEE
    }

    fn counted(&self, p: u8, day: u16, wanted: u64) -> u64 {
        let Some(p) = participant_on(p, day) else {
            return 0;
        };
        self.folders[p.index()].counted(day, wanted)
    }

    fn take(&mut self, p: u8, day: u16, sum: u64) -> Result<(), Short> {
        let Some(p) = participant_on(p, day) else {
            return nothing_there(sum);
        };
        self.folders[p.index()].take(day, sum)
    }

    fn add(&mut self, p: u8, kind: u8, sum: u64, last: u16, today: u16) -> Result<(), Cause> {
        let p = Participant::try_from(p)?;
        if kind != GUARANTEE {
            return Err(Cause::UnknownKind);
        }
        if sum == 0 || sum > MOST {
            return Err(Cause::BadSum);
        }
        if last < today || last >= LAST_DAY {
            return Err(Cause::LastDay);
        }
        self.folders[p.index()].put(today, Guarantee { last, sum })
    }
}
