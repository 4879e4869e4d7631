//! Plans for a loss of power, which each disk keeps in the same way.
ghost use Rattle.std.specs.Prelude.{◌≡◌, ◌≤◌};
ghost use Rattle.volt_disk.specs.Power.{full_power, fate, after_call, planned, cycled};

/// What a counted call meets.
#[derive(Clone, Copy, Debug, PartialEq, Eq)]
pub enum Fate {
    /// The disk has power, and no loss is planned for this call.
    Works,
    /// The planned loss of power comes true.
    Cut,
    /// The disk has no power.
    Dark,
}

/// Whether a disk has power, and its plan for a loss.
#[derive(Clone, Copy, Debug, PartialEq, Eq)]
pub struct Power {
    /// The choice of the loss that came true, until the disk is power-cycled.
    pub lost: Option<u64>,
    /// The plan: the number of the call, counted from the next one as 1, and the choice.
    pub cut: Option<(u64, u64)>,
    /// How many plans there were, up to the greatest `u64`.
    pub plans: u64,
    /// The call and the choice of the last plan, and zeros before the first.
    pub last: (u64, u64),
}

impl Power {
    /// Full power and no plan.
    pub fn new() -> Power
        ensures { result ≡ full_power }
    {
        Power {
            lost: None,
            cut: None,
            plans: 0,
            last: (0, 0),
        }
    }

    /// Counts a call, and says what it meets.
    pub fn count_call(&mut self) -> Fate
        ensures fate { result ≡ fate self.old }
        ensures after { self.new ≡ after_call self.old }
    {
        if self.lost.is_some() {
            return Fate::Dark;
        }
        match self.cut {
            None => Fate::Works,
            Some((call, choice)) => {
                if call <= 1 {
                    self.lost = Some(choice);
                    self.cut = None;
                    Fate::Cut
                } else {
                    self.cut = Some((call - 1, choice));
                    Fate::Works
                }
            }
        }
    }

    /// Plans the loss of power at a coming call. It takes the place of an earlier plan.
    pub fn plan_cut(&mut self, call: u64, choice: u64)
        requires { 1 ≤ call }
        ensures { self.new ≡ planned call choice self.old }
    {
        self.cut = Some((call, choice));
        self.plans = self.plans.saturating_add(1);
        self.last = (call, choice);
    }

    /// Gives power again. A plan that hasn't come true stays.
    pub fn cycle(&mut self)
        ensures { self.new ≡ cycled self.old }
    {
        self.lost = None;
    }
}
