// The header of a capture: the mark and the version.
#![tactic(auto)]

ghost use Rattle.std.specs.Prelude.{◌≡◌, length};
ghost use Rattle.header.specs.Header;
ghost use Rattle.header.specs.Header.{header_test};

// Compared by the reader, written at the start of a capture.
const MARK: [u8; 3] = *b"WMR";

// Whether the capture starts with the mark and version 1.
pub fn header_is_right(capture: &[u8]) -> bool
    ensures { result ≡ header_test capture.now }
{
    if capture.len() < 5 {
        return false;
    }
    if capture[0] != MARK[0] {
        return false;
    }
    if capture[1] != MARK[1] {
        return false;
    }
    if capture[2] != MARK[2] {
        return false;
    }
    if capture[3] != 0 {
        return false;
    }
    capture[4] == 1
}

// Writes the mark and version 1.
pub fn put_header(out: &mut [u8])
    requires { length out.old ≡ 5 }
    ensures { out.new ≡ Rattle.header.specs.Header.header }
{
    out[0] = MARK[0];
    out[1] = MARK[1];
    out[2] = MARK[2];
    out[3] = 0;
    out[4] = 1;
}
