// Reads a marking file on standard input and prints its listing, with no fact put in, or `refused,NUMBER,LINE`: a load and a listing on a fresh desk.
#![tactic(auto)]

ghost use Rattle.std.specs.Prelude.{◌≡◌, ◌≤◌, length, take};
ghost use Rattle.scan.specs.declared.Alphabet.TheVariants.{EitherCase};
ghost use Rattle.reader.specs.File.{read_file};
ghost use Rattle.io.specs.Counts.{IsPrefixLen};
ghost use Rattle.listing.specs.Printed.{printed};

// What is printed for a file, in a buffer that every listing fits; the answer says how long it is.
fn listed(file: &[u8], out: &mut [u8]) -> usize
    requires { 65536 ≤ length out.old }
    ensures prefix_len { IsPrefixLen result out.new }
    ensures out_after { take result out.new ≡ printed (read_file EitherCase file.now) }
{
    let mut d = desk::fresh();
    match desk::load(&mut d, file) {
        Ok(()) => lesson::listing(&d.shelf, &d.lesson, out).unwrap_or(0),
        Err(refusal) => {
            let number = refusal.fault.number();
            lister::write_refusal(number, refusal.line, out).unwrap_or(0)
        }
    }
}

// The buffer has more room than the longest file that may load, so one that is longer is refused by its length and not cut off.
fn main() {
    let mut input = io::large_buffer();
    let n = io::read_full(0, &mut input);
    let mut out = io::large_buffer();
    let m = listed(&input[..n], &mut out);
    io::write_all(1, &out[..m]);
}
