//! A gate is a byte, and opened once it is 1; what stands behind it counts from then on.

ghost use Rattle.std.specs.Prelude.{◌≡◌, ◌≢◌, ◌+◌, ◌<◌, ◌^◌, ℕ, List, [], ◌∷◌, ◌++◌, length, drop, OnOk, IsErr};
ghost use Rattle.cas_disk.specs.Counts.{Counted};
ghost use Rattle.cas_disk.specs.Disk.{During, Changed, MayBeAnything, IsKept};
ghost use Rattle.cas_gates.specs.Gates.{MayOpen, MayOpenOver};

use cas_disk::{Folder, Name, put};
use cas_io::Failed;

/// Writes a block behind a closed gate, and then opens the gate. Four calls of the folder. Whatever a
/// crash leaves, at any moment, the gate is closed or the whole block stands behind it. The gate is the
/// last byte of the file, or what follows it was left by a crash and is written over.
pub fn write_gated<F: Folder>(
    folder: &mut F,
    n: Name,
    gate: u64,
    block: &[u8],
) -> Result<(), Failed>
    requires { gate + 1 < 2 ^ 64 }
    ensures opened { (front : List ℕ) → length front ≡ gate → IsKept n (front ++ 0 ∷ []) (F.disk folder.old)
        → OnOk result (IsKept n (front ++ 1 ∷ block.now) (F.disk folder.new)) }
    ensures during { (front : List ℕ) → length front ≡ gate → IsKept n (front ++ 0 ∷ []) (F.disk folder.old)
        → During (Changed n (λ _ file. MayOpen front block.now file)) (F.disk folder.old) (F.disk folder.new) }
    ensures opened_over { (front rest : List ℕ) (closed : ℕ) → length front ≡ gate → closed ≢ 1 → IsKept n (front ++ closed ∷ rest) (F.disk folder.old)
        → OnOk result (IsKept n (front ++ 1 ∷ (block.now ++ drop (length block.now) rest)) (F.disk folder.new)) }
    ensures during_over { (front rest : List ℕ) (closed : ℕ) → length front ≡ gate → closed ≢ 1 → IsKept n (front ++ closed ∷ rest) (F.disk folder.old)
        → During (Changed n (λ _ file. MayOpenOver front block.now file)) (F.disk folder.old) (F.disk folder.new) }
    ensures others { During (Changed n MayBeAnything) (F.disk folder.old) (F.disk folder.new) }
    ensures count { Counted (F.faults_of folder.old) (F.faults_of folder.new) (IsErr result) }
{
    put(folder, n, gate + 1, block)?;
    put(folder, n, gate, &[1])
}
