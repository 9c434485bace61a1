//! A folder of named files: what reads give, and what a crash may leave.
ghost use Rattle.std.specs.Prelude.{◌≡◌, ◌≤◌, ◌<◌, ◌-◌, ◌^◌, List, ℕ, length, take};
ghost use Rattle.std.specs.Prelude.{Option, Some, None, IfOk, IsSome, option_map};
ghost use Rattle.outside.specs.Causes.{HasCause, IsAmple};
ghost use Rattle.outside.specs.Disk.{Outcomes, IsImage, IsTorn, IsShortened};
ghost use Rattle.outside.specs.Disk.{IsRemoved, Within, Follows, Settles, Elapses};
ghost use Rattle.outside.specs.Files.{Files, content, written, Reads, Sets, Keeps};

use crate::Fault;
use flow_types::Name;

/// Files by name.
pub trait Site: Send + Drop {
    /// Whether the site tells what its files hold. Where it doesn't, only the clauses on faults
    /// hold.
    ghost tells: { Type 0 };

    /// What a read gives under each name.
    ghost files: { Self → Files };

    /// What a crash at this moment may leave under each name. Names are independent of each other.
    ghost may_leave: { Self → Outcomes };

    /// The disk time, a number that doesn't fall.
    ghost moment: { Self → ℕ };

    /// What a crash at some moment from that time on might have left, during a call or between two.
    ghost images_since: { Self → ℕ → Files → Type 0 };

    /// A count that rises at each failure.
    ghost count: { Self → ℕ };

    /// Whether the site answers want of memory only once its count stands at its last value.
    ghost ample: { Self → Type 0 };

    /// The length of the file in bytes, None where there is none.
    fn size(&mut self, name: &Name) -> Result<Option<u64>, Fault>
        ensures size { IfOk result
            (λ size. tells → size ≡ option_map length (files self.old name.now)) }
        ensures files { tells → files self.new ≡ files self.old }
        ensures crash { tells → Within (may_leave self.old) (may_leave self.new) }
        ensures time { tells → Elapses (moment self.old) (moment self.new)
            (images_since self.old) (images_since self.new) (may_leave self.new) }
        ensures cause { HasCause (count self.old) (count self.new) result }
        ensures ample { IsAmple (ample self.old) (ample self.new) (count self.new) result };

    /// Fills from the bytes that begin at `at`, and answers how many it gave: the least of the room
    /// and of what follows `at`. An absent file has no bytes.
    fn read(&mut self, name: &Name, at: u64, into: &mut [u8]) -> Result<usize, Fault>
        ensures bound { IfOk result (λ count. count ≤ length into.new) }
        ensures bytes { IfOk result (λ count. tells
            → Reads (content (files self.old name.now)) at into.old into.new count) }
        ensures files { tells → files self.new ≡ files self.old }
        ensures crash { tells → Within (may_leave self.old) (may_leave self.new) }
        ensures time { tells → Elapses (moment self.old) (moment self.new)
            (images_since self.old) (images_since self.new) (may_leave self.new) }
        ensures cause { HasCause (count self.old) (count self.new) result }
        ensures ample { IsAmple (ample self.old) (ample self.new) (count self.new) result };

    /// Writes over what is there and past the end, and makes the file where there is none.
    fn write(&mut self, name: &Name, at: u64, bytes: &[u8]) -> Result<(), Fault>
        requires { tells → at ≤ length (content (files self.old name.now)) }
        ensures files { tells
            → Sets result name.now (Some (written at bytes.now (content (files self.old name.now))))
            (files self.old) (files self.new) }
        ensures crash { tells → Follows result name.now
            (IsTorn at (length bytes.now)) (may_leave self.old) (may_leave self.new) }
        ensures time { tells → Elapses (moment self.old) (moment self.new)
            (images_since self.old) (images_since self.new) (may_leave self.new) }
        ensures cause { HasCause (count self.old) (count self.new) result }
        ensures ample { IsAmple (ample self.old) (ample self.new) (count self.new) result };

    /// Cuts the file to a length.
    fn cut(&mut self, name: &Name, len: u64) -> Result<(), Fault>
        requires there { tells → IsSome (files self.old name.now) }
        requires within { tells → len ≤ length (content (files self.old name.now)) }
        ensures files { tells
            → Sets result name.now (Some (take len (content (files self.old name.now))))
            (files self.old) (files self.new) }
        ensures crash { tells
            → Follows result name.now (IsShortened len) (may_leave self.old) (may_leave self.new) }
        ensures time { tells → Elapses (moment self.old) (moment self.new)
            (images_since self.old) (images_since self.new) (may_leave self.new) }
        ensures cause { HasCause (count self.old) (count self.new) result }
        ensures ample { IsAmple (ample self.old) (ample self.new) (count self.new) result };

    /// Makes what stands under the name outlive a crash. The name may be absent.
    fn sync(&mut self, name: &Name) -> Result<(), Fault>
        ensures files { tells → Keeps result name.now (files self.old) (files self.new) }
        ensures crash { tells
            → Settles result name.now (files self.new) (may_leave self.old) (may_leave self.new) }
        ensures time { tells → Elapses (moment self.old) (moment self.new)
            (images_since self.old) (images_since self.new) (may_leave self.new) }
        ensures cause { HasCause (count self.old) (count self.new) result }
        ensures ample { IsAmple (ample self.old) (ample self.new) (count self.new) result };

    /// Removes the file. The name may be absent.
    fn remove(&mut self, name: &Name) -> Result<(), Fault>
        ensures files { tells → Sets result name.now None (files self.old) (files self.new) }
        ensures crash { tells
            → Follows result name.now IsRemoved (may_leave self.old) (may_leave self.new) }
        ensures time { tells → Elapses (moment self.old) (moment self.new)
            (images_since self.old) (images_since self.new) (may_leave self.new) }
        ensures cause { HasCause (count self.old) (count self.new) result }
        ensures ample { IsAmple (ample self.old) (ample self.new) (count self.new) result };

    /// The count of failures.
    fn faults(&self) -> u64
        ensures { result ≡ count self.now };

    /// What reads give is one of the images.
    ghost reads_image: { tells → (site : Self) → IsImage (may_leave site) (files site) };

    /// This moment is one of those since an earlier one.
    ghost counts_now: { tells → (site : Self) (t : ℕ) (image : Files) → t ≤ moment site
        → IsImage (may_leave site) image → images_since site t image };

    /// Since this moment there is no other.
    ghost only_now: { tells → (site : Self) (image : Files) → images_since site (moment site) image
        → IsImage (may_leave site) image };

    /// An ample site's count is below its last value.
    ghost ample_below: { (site : Self) → ample site → count site < 2 ^ 64 - 1 };
}
