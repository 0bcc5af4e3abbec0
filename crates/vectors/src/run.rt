// All cases on standard input asked.
use crate::{Case, rooms};
use std::io;

// Asks all cases, whose kinds are a byte before each, and ends the line of each. Where one is of no kind or cut, a line says so, and the cases end.
fn ask_all<F>(rt: &impl Print, cases: &[u8], mut ask: F) -> io::Result<()>
where
    F: FnMut(u8, &mut Case<'_>) -> io::Result<bool>,
    requires { F.IsAlwaysCallable ask }
{
    let mut rest = cases;
    while let Some((kind, bytes)) = rest.split_first() {
        let mut case = Case::new(bytes);
        if !ask(*kind, &mut case)? {
            return rt.write_all(b"bad case\n");
        }
        let Some(next) = bytes.get(case.at..) else {
            return rt.write_all(b"\nbad case\n");
        };
        rt.write_all(b"\n")?;
        rest = next;
    }
    Ok(())
}

// Asks all cases on standard input. The asking is given a case's kind and the case behind that, prints the answer and says whether there is such a kind.
pub fn run_cases<R: Input + Print, F>(rt: &R, ask: F) -> io::Result<()>
where
    F: FnMut(u8, &mut Case<'_>) -> io::Result<bool>,
    requires { F.IsAlwaysCallable ask }
{
    let mut cases = rooms::sheet();
    let n = input::read_full(&mut rt.reader(), &mut cases)?;
    ask_all(rt, &cases[..n], ask)
}
