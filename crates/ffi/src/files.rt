// The check of a graph file.
ghost use Rattle.std.specs.Prelude.{◌≡◌, get_or};
ghost use Rattle.symbols.specs.Refusals.{values_of};
ghost use Rattle.checks.specs.Refusals.{verdict};
ghost use Rattle.ffi.specs.Files.{checked};

use super::out::put_fields;
use symbols::Refusal;

// The id that a refusal names, else 0.
pub fn id_of(r: Refusal) -> u64
    ensures { result ≡ get_or (values_of r) 0 0 }
{
    r.named().map_or(0, |id| id.0 as u64)
}

// 0, n and the root of an accepted file; else the refusal's number and the id that it names.
pub fn check_file(file: &[u8], out: &mut [u64])
    ensures { out.new ≡ checked (verdict file.now) out.old }
{
    match checks::check(file) {
        Ok(layout) => put_fields(out, &[0, layout.count as u64, layout.root.0 as u64]),
        Err(r) => put_fields(out, &[r.number(), id_of(r), 0]),
    }
}
