//! The calls of a disk, with what each does to what a crash may leave.

ghost use Rattle.std.specs.Prelude.{◌≡◌, ◌≤◌, ◌+◌, List, ℕ, Some, length, take, drop, IfOk, OnOk, OnErr, IfSome, IsSome};
ghost use Rattle.nm_base.specs.Count.{Rose};
ghost use Rattle.nm_disk.specs.Image.{DiskState, contents_with_piece, contents_cut, IsTorn, IsCut, IsPerhapsCut, ContentsStep, ImageStep, NoNewImage, LeavesOnly, GoesOn};

use nm_base::Failed;

/// A disk of bytes, from place 0 on, and what a crash may leave of it.
///
/// A disk that tells its bytes tells them always, and one that doesn't never does. Of a disk that
/// doesn't, nothing is said of what a crash leaves.
pub trait Disk {
    /// What callers know of it: its bytes, its faults, its clock, and what a crash may leave.
    ghost state: { Self → DiskState };

    /// How many bytes there are.
    fn len(&mut self) -> Result<u64, Failed>
        ensures size { IfOk result (λ n. IfSome (state self.old).contents (λ bytes. n ≡ length bytes)) }
        ensures same { (state self.new).contents ≡ (state self.old).contents }
        ensures crash { IsSome (state self.old).contents → NoNewImage (state self.old) (state self.new) }
        ensures time { GoesOn (state self.old) (state self.new) }
        ensures count { (state self.old).faults ≤ (state self.new).faults }
        ensures failed { OnErr result (Rose (state self.old).faults (state self.new).faults) };

    /// Reads the bytes from a place on into the front of a piece, and answers how many they are.
    ///
    /// Fewer than the piece has mean the end, where the disk doesn't tell its bytes.
    fn read(&mut self, at: u64, into: &mut [u8]) -> Result<usize, Failed>
        requires { IfSome (state self.old).contents (λ bytes. at + length into.old ≤ length bytes) }
        ensures within { IfOk result (λ n. n ≤ length into.new) }
        ensures filled { IfOk result (λ n. IsSome (state self.old).contents → n ≡ length into.new) }
        ensures given { OnOk result (IfSome (state self.old).contents (λ bytes. into.new ≡ take (length into.new) (drop at bytes))) }
        ensures same { (state self.new).contents ≡ (state self.old).contents }
        ensures crash { IsSome (state self.old).contents → NoNewImage (state self.old) (state self.new) }
        ensures time { GoesOn (state self.old) (state self.new) }
        ensures count { (state self.old).faults ≤ (state self.new).faults }
        ensures failed { OnErr result (Rose (state self.old).faults (state self.new).faults) };

    /// Writes a piece over the bytes from a place on, and past their end where it reaches so far.
    ///
    /// Until a sync, and after a fault, the range may hold any bytes in a crash.
    fn write_at(&mut self, at: u64, piece: &[u8]) -> Result<(), Failed>
        requires { IfSome (state self.old).contents (λ bytes. at ≤ length bytes) }
        ensures written { OnOk result ((state self.new).contents ≡ contents_with_piece (state self.old).contents at piece.now) }
        ensures torn { OnErr result (ContentsStep (IsTorn at (length piece.now)) (state self.old).contents (state self.new).contents) }
        ensures crash { IsSome (state self.old).contents → ImageStep (IsTorn at (length piece.now)) (state self.old) (state self.new) }
        ensures time { GoesOn (state self.old) (state self.new) }
        ensures count { (state self.old).faults ≤ (state self.new).faults }
        ensures failed { OnErr result (Rose (state self.old).faults (state self.new).faults) };

    /// Takes away the bytes from a length on.
    ///
    /// After Ok they are gone for good. After a fault, and where a crash falls into the call, the cut is
    /// done or not done.
    fn cut(&mut self, to: u64) -> Result<(), Failed>
        requires { IfSome (state self.old).contents (λ bytes. to ≤ length bytes) }
        ensures done { OnOk result ((state self.new).contents ≡ contents_cut (state self.old).contents to) }
        ensures perhaps { OnErr result (ContentsStep (IsPerhapsCut to) (state self.old).contents (state self.new).contents) }
        ensures gone { OnOk result (IsSome (state self.old).contents → ImageStep (IsCut to) (state self.old) (state self.new)) }
        ensures crash { IsSome (state self.old).contents → ImageStep (IsPerhapsCut to) (state self.old) (state self.new) }
        ensures time { GoesOn (state self.old) (state self.new) }
        ensures count { (state self.old).faults ≤ (state self.new).faults }
        ensures failed { OnErr result (Rose (state self.old).faults (state self.new).faults) };

    /// Brings all bytes onto the disk: after Ok a crash leaves what a read gives.
    fn sync(&mut self) -> Result<(), Failed>
        ensures same { (state self.new).contents ≡ (state self.old).contents }
        ensures durable { OnOk result (IfSome (state self.old).contents (λ bytes. LeavesOnly bytes (state self.new))) }
        ensures crash { IsSome (state self.old).contents → NoNewImage (state self.old) (state self.new) }
        ensures time { GoesOn (state self.old) (state self.new) }
        ensures count { (state self.old).faults ≤ (state self.new).faults }
        ensures failed { OnErr result (Rose (state self.old).faults (state self.new).faults) };

    /// The disk as it reads is one of its images.
    ghost as_read: { (disk : Self) (bytes : List ℕ) → (state disk).contents ≡ Some bytes → (state disk).crash_images bytes };

    /// This moment is one of those from an earlier one on.
    ghost counts_now: { (disk : Self) (since : ℕ) (image : List ℕ) → since ≤ (state disk).moment → (state disk).crash_images image
        → (state disk).images_since since image };

    /// From this moment on there was no other.
    ghost only_now: { (disk : Self) (image : List ℕ) → (state disk).images_since (state disk).moment image → (state disk).crash_images image };
}
