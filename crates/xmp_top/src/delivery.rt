// Writes what is due.
ghost use Rattle.xmp_top.specs.Delivery.{Delivered};

use crate::prepared::Prepared;
use xmp_base::{Sink, Status, put_all};

/// Writes the bytes due on `out`, and then those due on `err`, up to the first write that fails.
pub fn deliver<K: Sink, L: Sink>(due: &Prepared, out: &mut K, err: &mut L) -> Status
    ensures { Delivered (record { out = due.now.out; err = due.now.err; status = due.now.status })
        (record { before = K.told out.old; now = K.told out.new; faults_before = K.faults out.old; faults_now = K.faults out.new })
        (record { before = L.told err.old; now = L.told err.new; faults_before = L.faults err.old; faults_now = L.faults err.new })
        result }
{
    if put_all(out, due.out.as_slice()).is_err() {
        return Status::WriteFault;
    }
    if put_all(err, due.err.as_slice()).is_err() {
        return Status::WriteFault;
    }
    due.status
}
