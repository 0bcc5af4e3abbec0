// Asks an admission every case on standard input and prints every answer, one line each.
// A case is `A`, all bytes that come, in pieces, how many events there are, and for each how often it comes and what comes: 65,535 is a close, 65,534 an
// ask, any other number a chunk of so many bytes, those behind the ones before. Numbers have two bytes, the low one first. An event that comes several times is answered once, as it is
// the last time.
#![tactic(auto)]

use admission::Admission;
use std::io;
use vectors::said::Refused;
use vectors::{Case, pieces, rooms};

#[derive(Clone, Copy)]
enum Event {
    Chunk(u16),
    Ask,
    Close,
}

impl From<u16> for Event {
    fn from(number: u16) -> Event {
        match number {
            65535 => Event::Close,
            65534 => Event::Ask,
            size => Event::Chunk(size),
        }
    }
}

// An admission, the bytes that come, and the memory that it is lent, of just the sizes that it asks for.
#[derive(Drop)]
struct Coming<'a> {
    admission: Admission,
    bytes: Case<'a>,
    contents: [u8; 514],
    body: [u8; 16384],
    map: [u16; 16384],
    verdicts: [u16; 192],
}

impl<'a> Coming<'a> {
    fn new(bytes: &'a [u8]) -> Coming<'a> {
        Coming {
            admission: admission::start(),
            bytes: Case::new(bytes),
            contents: [0; 514],
            body: [0; 16384],
            map: [0; 16384],
            verdicts: [0; 192],
        }
    }

    // The number of what refuses an event, 0 for nothing.
    // Stays: what may not change (`admission::ask`, `close` and `intake::chunk` answer that number, of any admission).
    fn come(&mut self, event: Event) -> usize {
        let admitted = match event {
            Event::Ask => return admission::ask(self.admission),
            Event::Close => admission::close(self.admission),
            Event::Chunk(size) => intake::chunk(
                self.admission,
                self.bytes.part(usize::from(size)),
                &mut self.contents,
                &mut self.body,
                &mut self.map,
                &mut self.verdicts,
            ),
        };
        self.admission = admitted.admission;
        admitted.refusal
    }

    // `good COUNT`, and for each verdict ` TAG accepted` or ` TAG refused N AT`
    fn say_verdicts(&self, rt: &impl Print) -> io::Result<()> {
        print!(rt; "good {}", self.admission.judged)?;
        let (verdicts, _) = self.verdicts.as_chunks::<3>();
        for [tag, number, address] in verdicts.iter().take(self.admission.judged) {
            match number {
                0 => print!(rt; " {tag} accepted")?,
                _ => print!(rt; " {tag} refused {number} {address}")?,
            }
        }
        Ok(())
    }

    fn say(&self, rt: &impl Print, event: Event, refusal: usize) -> io::Result<()> {
        match event {
            Event::Ask if self.admission.closed == 0 => print!(rt; "open"),
            _ if refusal != 0 => rt.print(Refused(refusal)),
            Event::Chunk(_) => print!(rt; "ok"),
            Event::Ask | Event::Close => self.say_verdicts(rt),
        }
    }

    // An event so many times, the last time answered.
    fn again(&mut self, rt: &impl Print, event: Event, times: u16) -> io::Result<()> {
        for time in 1..=times {
            let refusal = self.come(event);
            if time == times {
                self.say(rt, event, refusal)?;
            }
        }
        Ok(())
    }
}

fn ask_admission(rt: &impl Print, case: &mut Case<'_>, room: &mut [u8]) -> io::Result<()> {
    let reach = pieces::lay(case, room);
    let mut coming = Coming::new(&room[..reach]);
    for i in 0..case.number() {
        if i > 0 {
            print!(rt; " ; ")?;
        }
        let times = case.number();
        let event = Event::from(case.number());
        coming.again(rt, event, times)?;
    }
    Ok(())
}

// The answer to a case; whether there is its kind.
fn ask(rt: &impl Print, kind: u8, case: &mut Case<'_>, room: &mut [u8]) -> io::Result<bool> {
    match kind {
        b'A' => ask_admission(rt, case, room)?,
        _ => return Ok(false),
    }
    Ok(true)
}

fn main(rt: HostRuntime) -> io::Result<()> {
    let mut room = rooms::bytes();
    vectors::run_cases(&rt, |kind, case| ask(&rt, kind, case, &mut room))
}
