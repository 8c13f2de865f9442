// What came of the lines: counts, and the first lines that are not as they should be.
use crate::case::Service;
use telling::{say, say_line};

// Further faults are only counted.
const POINTED_OUT: u32 = 10;

// The first fault that was found in a line, and the number by which it is pointed out: something else was answered or written, a byte of the
// output past the text was changed, a number of the memory is not 0, or the line is no case.
#[derive(Clone, Copy)]
pub enum Fault {
    Differs = 3,
    BytesChanged = 4,
    MemoryLeft = 5,
    Malformed = 6,
}

// How many lines there were, and how many came to what; the malformed ones are the faults beside those counted by kind.
#[derive(Clone, Copy)]
pub struct Report {
    lines: u32,
    read: u32,
    run: u32,
    faults: u32,
    differ: u32,
    bytes_changed: u32,
    memory_left: u32,
}

fn point_out(rt: &(impl Print + Eprint), line: u32, fault: Fault) {
    say(rt, b"line and fault:\n");
    say_line(rt, line);
    say_line(rt, fault as u32);
}

fn count(counted: &mut u32) {
    *counted = counted.saturating_add(1);
}

impl Report {
    pub fn new() -> Self {
        Self {
            lines: 0,
            read: 0,
            run: 0,
            faults: 0,
            differ: 0,
            bytes_changed: 0,
            memory_left: 0,
        }
    }

    // Counts a line: the service that answered and wrote what was expected, or the line's fault.
    pub fn add(&mut self, rt: &(impl Print + Eprint), outcome: Result<Service, Fault>) {
        count(&mut self.lines);
        match outcome {
            Ok(Service::Read) => count(&mut self.read),
            Ok(Service::Run) => count(&mut self.run),
            Err(fault) => self.add_fault(rt, fault),
        }
    }

    fn add_fault(&mut self, rt: &(impl Print + Eprint), fault: Fault) {
        if self.faults < POINTED_OUT {
            point_out(rt, self.lines, fault);
        }
        count(&mut self.faults);
        match fault {
            Fault::Differs => count(&mut self.differ),
            Fault::BytesChanged => count(&mut self.bytes_changed),
            Fault::MemoryLeft => count(&mut self.memory_left),
            Fault::Malformed => {}
        }
    }

    pub fn print(self, rt: &(impl Print + Eprint)) {
        say(
            rt,
            b"lines, READ as expected, RUN as expected, faults, that differ, that change output bytes, that leave memory:\n",
        );
        for count in [
            self.lines,
            self.read,
            self.run,
            self.faults,
            self.differ,
            self.bytes_changed,
            self.memory_left,
        ] {
            say_line(rt, count);
        }
    }
}
