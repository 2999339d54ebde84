// What the adapters leave in the lent buffer.
ghost use Rattle.std.specs.Prelude.{◌≡◌};
ghost use Rattle.ffi.specs.Out.{laid};

use places::put;

// Stores fields at the buffer's front, those that it has room for.
pub fn put_fields(out: &mut [u64], fields: &[u64])
    ensures { out.new ≡ laid fields.now 0 out.old }
{
    for (i, &v) in fields.iter().enumerate() {
        put(out, i, v);
    }
}
