//! Laws of the first fault in the text of a module. Each function does nothing: its contract is the law.

ghost use Rattle.std.specs.Prelude.{◌≡◌, ◌≤◌, ◌+◌, ℕ, List, length, take, true, Err};
ghost use Rattle.nm_yang.specs.declared.fault.Fault.{Fault};
ghost use Rattle.nm_yang.specs.Module.{reading};
ghost use Rattle.nm_yang_laws.specs.Faults.{IsCause, halts, is_1_1};

/// The first fault of a text stands within it, or right behind it.
pub fn fault_in_text()
    ensures { (text : List ℕ) (fault : Fault) → reading text ≡ Err fault → fault.place ≤ length text }
{}

/// Where the first fault of a text stands there is a cause of its kind (RFC 7950 section 6).
pub fn fault_has_cause()
    ensures { (text : List ℕ) (fault : Fault) → reading text ≡ Err fault → IsCause text fault }
{}

/// Texts that agree up to where reading stopped at a fault, and five bytes on, have the same fault: the byte at the place, and a whole
/// character behind it. A backslash that begins no escape is a fault only in a text that says that its module is of version 1.1,
/// which it may say behind the backslash (RFC 7950 sections 6.1.3 and 7.1.2).
pub fn same_fault()
    ensures { (one other : List ℕ) (fault : Fault) → reading one ≡ Err fault → halts (is_1_1 other) fault.kind ≡ true
        → take (fault.place + 5) one ≡ take (fault.place + 5) other → reading other ≡ Err fault }
{}
