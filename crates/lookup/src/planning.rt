// Making a plan, adding FECs to it, and its questions.
ghost use Rattle.std.specs.Prelude.{◌≡◌, length, IfOk, if◌then◌else◌, Some, None};
ghost use Rattle.frame.specs.Numbers.{told_by};
ghost use Rattle.lookup.specs.Matches.{fec_numbered, best_match, BestMatch, OnlyMatch};
ghost use Rattle.lookup.specs.Plans.{fecs_of, routers_of, policy_of, void_of, PolicyMade, SettingMade, NewPlan, Added};

use crate::address::Address;
use crate::fec::Fec;
use crate::matching::find_longest;
use crate::plan::{Plan, Policy, Setting};
use crate::table::{fec_of, is_taken};
use frame::Refusal;
use std::alloc::{AllocError, Global};

// The most FECs that a plan has.
const MOST_FECS: usize = 32;

impl TryFrom<u32> for Policy {
    type Error = Refusal;

    ghost try_from_gives = { PolicyMade };

    fn try_from(number: u32) -> Result<Policy, Refusal> {
        match number {
            0 => Ok(Policy::Ordered),
            1 => Ok(Policy::Independent),
            _ => Err(Refusal::OutOfRange),
        }
    }
}

impl Setting {
    // 1 to 16 routers, and policy 0 or 1.
    fn new(routers: u32, policy: u32) -> Result<Setting, Refusal>
        ensures { SettingMade routers policy result }
    {
        let policy = Policy::try_from(policy)?;
        if !(1..=16).contains(&routers) {
            return Err(Refusal::OutOfRange);
        }
        Ok(Setting { routers, policy })
    }
}

impl Plan {
    // A plan of 1 to 16 routers and policy 0 or 1, else a void one. It has room for all its FECs from the start. The policy is a
    // number here, since a caller may give one that names none: then the plan is void, and says so.
    pub fn new(heap: Global, routers: u32, policy: u32) -> Result<Plan, AllocError>
        ensures { IfOk result (λ p. NewPlan routers policy p) }
    {
        let fecs = Vec::with_capacity(heap, MOST_FECS)?;
        let setting = Setting::new(routers, policy).ok();
        Ok(Plan { setting, fecs })
    }

    // Why the plan is void, if it is. An Option, since to ask is no call that can be refused.
    pub fn fault(&self) -> Option<Refusal>
        ensures { told_by result ≡ (if void_of self.now then Some 7 else None) }
    {
        // a match: `ok_or` and then `err` is no plainer
        match self.setting {
            Some(_) => None,
            None => Some(Refusal::OutOfRange),
        }
    }

    // Takes the FEC of an address and a length, and answers its number; or refuses, and nothing changes.
    pub fn add(&mut self, address: Address, len: u32) -> Result<usize, Refusal>
        ensures { Added self.old address len result self.new }
    {
        self.setting.ok_or(Refusal::OutOfRange)?;
        let fec = fec_of(address, len)?;
        let number = self.fecs.len();
        if number >= MOST_FECS {
            return Err(Refusal::TableFull);
        }
        if is_taken(&self.fecs, &fec) {
            return Err(Refusal::FecTaken);
        }
        self.fecs.push_reserved(fec);
        Ok(number)
    }

    pub fn routers(&self) -> u32
        ensures { result ≡ routers_of self.now }
    {
        self.setting.map_or(0, |s| s.routers)
    }

    pub fn policy(&self) -> Policy
        ensures { result ≡ policy_of self.now }
    {
        self.setting.map_or(Policy::Ordered, |s| s.policy)
    }

    pub fn len(&self) -> usize
        ensures { result ≡ length (fecs_of self.now) }
    {
        self.fecs.len()
    }

    // The FEC of a number, if there is one.
    pub fn fec(&self, number: usize) -> Option<Fec>
        ensures { result ≡ fec_numbered (fecs_of self.now) number }
    {
        self.fecs.get(number).copied()
    }

    // The number of the longest FEC that covers an address: every other that does is shorter.
    #[tactic(auto, using(crate::proofs::Strict::only_match))]
    pub fn find(&self, address: Address) -> Option<usize>
        ensures named { result ≡ best_match (fecs_of self.now) address }
        ensures best { BestMatch (fecs_of self.now) address result }
        ensures only { OnlyMatch (fecs_of self.now) address result }
    {
        find_longest(&self.fecs, &address)
    }
}
