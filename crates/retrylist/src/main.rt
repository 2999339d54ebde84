#![tactic(auto)]
// The program: reads the file `graph` and prints its listing. All but the reading and writing is `respond`, whose contract says
// what is printed.
ghost use Rattle.std.specs.Prelude.{◌≤◌, length};
ghost use Rattle.text.specs.Text.{WroteUpTo};
ghost use Rattle.retrylist.specs.Printed.{printed};

use graphfile::{file_room, read_graph};
use std::io;

// Everything that is printed.
fn respond(file: &[u8], out: &mut [u8]) -> usize
    requires { 164000 ≤ length out.old }
    ensures { WroteUpTo 164000 (printed file.now) 0 out.old out.new result }
{
    match listing::list(file, out) {
        Ok(n) => n,
        Err(r) => refusals::refusal(r, out),
    }
}

fn main(rt: HostRuntime) -> io::Result<()> {
    let mut file = file_room();
    // No listing is longer: refusal 14 never occurs.
    let mut out = [0; 164000];
    let n = read_graph(&rt, &mut file);
    let r = respond(&file[..n], &mut out);
    rt.write_all(&out[..r])
}
