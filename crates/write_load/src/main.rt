// Writes the capture of 100 blocks of a load to standard output: start 1, profile 1, 3 wrong places.
#![tactic(auto)]

ghost use Rattle.std.specs.Prelude.{◌≡◌, length};
ghost use Rattle.tables.specs.Tables.{ours, slot_of};
ghost use Rattle.load.specs.Records.{capture_of};

use tables::Standard;

fn fill(out: &mut [u8])
    requires { length out.old ≡ 1305 }
    ensures { out.new ≡ capture_of (slot_of ours 1) 1 3 1 100 }
{
    load::write_capture(&Standard, 1, 1, 3, 100, out);
}

// A write that fails ends the program quietly.
fn main(rt: HostRuntime) {
    let mut out = [0u8; 1305];
    fill(&mut out);
    let _ = rt.write_all(&out);
}
