// The listing of a graph file.
ghost use Rattle.std.specs.Prelude.{◌≡◌};
ghost use Rattle.listing.specs.Answer.{answer};
ghost use Rattle.ffi.specs.Lists.{listed_as, text_after};

use super::files::id_of;
use super::out::put_fields;

// 0 and the length of the listing, which `text` begins with; or the refusal's number and the id that it names.
pub fn list_file(file: &[u8], text: &mut [u8], out: &mut [u64])
    ensures { (out.new ≡ listed_as (answer file.now text.old) out.old) × (text.new ≡ text_after (answer file.now text.old)) }
{
    match listing::list(file, text) {
        Ok(n) => put_fields(out, &[0, n as u64, 0]),
        Err(r) => put_fields(out, &[r.number(), id_of(r), 0]),
    }
}
