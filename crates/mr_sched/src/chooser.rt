//! Choices from a number: who takes a step, who gets a lock, and where an allocation lies.
ghost use Rattle.std.specs.Prelude.{◌≡◌, ◌≢◌, ◌<◌, length};
ghost use Rattle.mr_sched.specs.Chooser.{address_from, behind_address, behind_draw, drawn_from, first_chooser};

const FACTOR: u64 = 6_364_136_223_846_793_005;

const STEP: u64 = 1_442_695_040_888_963_407;

const FIRST_ADDRESS: u64 = 65_536;

/// Makes a schedule's choices from a number, the same ones for the same number.
#[derive(Clone, Copy, Debug, PartialEq, Eq)]
pub struct Chooser {
    /// The last number that was drawn, at first the one that is given.
    number: u64,
    /// The first address that no allocation has taken.
    next: u64,
}

impl Chooser {
    ghost use Rattle.std.specs.Prelude.{◌≡◌, ◌≢◌, ◌<◌, length};
    ghost use Rattle.mr_sched.specs.Chooser.{address_from, behind_address, behind_draw, drawn, drawn_from, first_chooser, position_in};

    /// A chooser that draws from a number, and finds addresses from 65,536 on.
    pub fn new(number: u64) -> Chooser
        ensures { result ≡ first_chooser number }
    {
        Chooser {
            number,
            next: FIRST_ADDRESS,
        }
    }

    /// The thread that takes the next step, one of these.
    pub fn thread(&mut self, enabled: &[u32]) -> u32
        requires { 0 < length enabled.now }
        ensures thread { result ≡ drawn_from self.old enabled.now }
        ensures drawn { self.new ≡ behind_draw self.old }
    {
        let at = self.draw(enabled.len());
        enabled[at]
    }

    /// The thread that gets a lock, one of these.
    pub fn waiter(&mut self, waiting: &[u32]) -> u32
        requires { 0 < length waiting.now }
        ensures waiter { result ≡ drawn_from self.old waiting.now }
        ensures drawn { self.new ≡ behind_draw self.old }
    {
        let at = self.draw(waiting.len());
        waiting[at]
    }

    /// An address of this alignment for so many bytes, or none where they would reach past the last address.
    pub fn address(&mut self, size: u64, align: u64) -> Option<u64>
        requires { align ≢ 0 }
        ensures address { result ≡ address_from self.old.next size align }
        ensures next { self.new ≡ behind_address self.old size align }
    {
        let missing = (align - self.next % align) % align;
        let addr = self.next.checked_add(missing)?;
        let behind = addr.checked_add(if size == 0 { 1 } else { size })?;
        self.next = behind;
        Some(addr)
    }

    // A position of so many.
    fn draw(&mut self, count: usize) -> usize
        requires { 0 < count }
        ensures position { result ≡ position_in (drawn self.old.number) count }
        ensures drawn { self.new ≡ behind_draw self.old }
    {
        self.number = self.number.wrapping_mul(FACTOR).wrapping_add(STEP);
        (self.number >> 33) as usize % count
    }
}
