// Reads snapshots back. Bytes are a snapshot exactly if the store parsed from them is well-formed and writes these very bytes.
#![tactic(auto)]

ghost use Rattle.std.specs.Prelude.{◌≡◌};
ghost use Rattle.model.specs.File.{full};
ghost use Rattle.model.specs.Calls as calls;
ghost use Rattle.store.specs.Store.{stored};
ghost use Rattle.snapshot_read.specs.Reading.{writes_these, is_snapshot};

use answers::Refusal;
use snapshot_parts::Snapshot;
use store::Store;

// Room for the longest snapshot.
fn room() -> [u8; Snapshot::LONGEST] {
    [0u8; Snapshot::LONGEST]
}

// Whether a store is well-formed and writes these very bytes.
fn writes(s: Store, src: &[u8]) -> bool
    ensures { result ≡ writes_these s src.now }
{
    let mut out = room();
    match snapshot_write::write(s, &mut out) {
        Err(_) => false,
        Ok(n) => snapshot_parts::same(&out[0..n], src),
    }
}

// Reads a snapshot: the store that the bytes hold, or refusal 14.
pub fn read(src: &[u8]) -> Result<Store, Refusal>
    ensures { result ≡ stored (calls.read full src.now) }
{
    let s = snapshot_parse::parse(src);
    if !writes(s, src) {
        return Err(Refusal::Form);
    }
    Ok(s)
}

// Whether bytes are a snapshot. Internal.
pub fn is_snapshot(src: &[u8]) -> bool
    ensures { result ≡ is_snapshot src.now }
{
    writes(snapshot_parse::parse(src), src)
}
