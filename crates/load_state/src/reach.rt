//! A set of instances is a number, with a bit for each of them.

ghost use Rattle.std.specs.Prelude.{◌≡◌, ◌↔◌, ◌⊎◌, ℕ};
ghost use Rattle.std.specs.Bool.{Decides};
ghost use Rattle.load_state.specs.Sets.{IsIn, IsJust, IsWider};

/// A set of instances other than the root. There are at most 64 of these, numbered from 1 in the order of loading.
#[derive(Clone, Copy, Debug, PartialEq, Eq)]
pub struct InstanceSet {
    bits: u64,
}

impl InstanceSet {
    /// No instance.
    pub const EMPTY: InstanceSet = InstanceSet { bits: 0 };

    /// The set with an instance more. There is no room in it for the root and for a number past 64.
    #[tactic(auto, using(crate::proofs::Sets::without_room, crate::proofs::Sets::in_adding))]
    pub fn adding(self, instance: u32) -> InstanceSet
        ensures { (n : ℕ) → IsIn result n ↔ (IsIn self n ⊎ IsJust instance n) }
    {
        if instance == 0 {
            return self;
        }
        if instance > 64 {
            return self;
        }
        InstanceSet {
            bits: self.bits | (1 << (instance - 1)),
        }
    }

    /// Whether the instance is in the set.
    #[tactic(auto, using(crate::proofs::Sets::decides_out, crate::proofs::Sets::decides_in))]
    pub fn has(self, instance: u32) -> bool
        ensures { Decides result (IsIn self instance) }
    {
        if instance == 0 {
            return false;
        }
        if instance > 64 {
            return false;
        }
        (self.bits >> (instance - 1)) & 1 == 1
    }

    /// The instances that are in one of the sets.
    #[tactic(auto, using(crate::proofs::Sets::in_with))]
    pub fn with(self, other: InstanceSet) -> InstanceSet
        ensures { (n : ℕ) → IsIn result n ↔ (IsIn self n ⊎ IsIn other n) }
    {
        InstanceSet {
            bits: self.bits | other.bits,
        }
    }
}

/// Instances to which opens lead, and those of them to which opens that aren't private lead.
#[derive(Clone, Copy, Debug, PartialEq, Eq)]
pub struct Reach {
    pub all: InstanceSet,
    pub public: InstanceSet,
}

impl Reach {
    /// No instance.
    pub const EMPTY: Reach = Reach {
        all: InstanceSet::EMPTY,
        public: InstanceSet::EMPTY,
    };

    /// Adds instances to which an open leads.
    pub fn add(&mut self, instances: InstanceSet, is_private: bool)
        ensures { IsWider self.old self.new is_private (IsIn instances) }
    {
        let all = self.all.with(instances);
        if is_private {
            self.all = all;
            return;
        }
        self.public = self.public.with(instances);
        self.all = all;
    }
}
