// A case: what it calls and lends, and what is to come of that.
use crate::form::Fields;
use crate::report::Fault;
use lending::{all_zero, fill_memory, fill_output, untouched};
use numbers::Numbers;

#[derive(Clone, Copy)]
pub enum Service {
    Read,
    Run,
}

// The five numbers that a case expects. They may be larger than those of any answer.
#[derive(Clone, Copy, PartialEq, Eq)]
struct Five {
    number: usize,
    steps: usize,
    cells: usize,
    length: usize,
    place: usize,
}

// What a line says first: the service, and how much of the memory and of the output is lent. The quota and the memory are for RUN.
#[derive(Clone, Copy)]
pub struct Head {
    service: Service,
    quota: u32,
    pub memory: usize,
    pub output: usize,
}

// What a line says: what it says first, what the service is given, and what is to be answered and written.
#[derive(Clone, Copy)]
pub struct Case<'a> {
    head: Head,
    expected: Five,
    text: &'a [u8],
    written: &'a [u8],
}

impl From<Numbers> for Five {
    fn from(numbers: Numbers) -> Five {
        Five {
            number: numbers.number as usize,
            steps: numbers.steps as usize,
            cells: numbers.cells as usize,
            length: numbers.length as usize,
            place: numbers.place as usize,
        }
    }
}

impl Five {
    fn read(fields: &mut Fields) -> Option<Five> {
        Some(Five {
            number: fields.number()?,
            steps: fields.number()?,
            cells: fields.number()?,
            length: fields.number()?,
            place: fields.number()?,
        })
    }
}

impl Service {
    fn of(kind: usize) -> Option<Service> {
        match kind {
            1 => Some(Service::Read),
            2 => Some(Service::Run),
            _ => None,
        }
    }
}

impl Head {
    pub fn read(fields: &mut Fields) -> Option<Head> {
        Some(Head {
            service: Service::of(fields.number()?)?,
            quota: u32::try_from(fields.number()?).ok()?,
            memory: fields.number()?,
            output: fields.number()?,
        })
    }
}

impl<'a> Case<'a> {
    // Reads what a line says behind its head, and puts the bytes that it stands for into the room. None where it is no case.
    pub fn read(head: Head, mut fields: Fields, room: &'a mut [u8]) -> Option<Case<'a>> {
        let expected = Five::read(&mut fields)?;
        let (text, room) = fields.bytes(room)?;
        let (written, _) = fields.bytes(room)?;
        fields.are_over().then_some(Case {
            head,
            expected,
            text,
            written,
        })
    }

    // Calls the service.
    fn call(self, memory: &mut [u32], output: &mut [u8]) -> Numbers {
        fill_output(output);
        match self.head.service {
            Service::Read => read::read(self.text, output).into(),
            Service::Run => {
                fill_memory(memory);
                run::run(self.text, self.head.quota, memory, output).into()
            }
        }
    }

    // What came of a call. One of READ is lent no memory.
    fn judge(self, numbers: Numbers, memory: &[u32], output: &[u8]) -> Result<Service, Fault> {
        let rest = output.strip_prefix(self.written).ok_or(Fault::Differs)?;
        if self.expected != numbers.into() {
            return Err(Fault::Differs);
        }
        if !untouched(rest) {
            return Err(Fault::BytesChanged);
        }
        if !all_zero(memory) {
            return Err(Fault::MemoryLeft);
        }
        Ok(self.head.service)
    }

    // Calls the service, and judges what came of it.
    pub fn run(self, memory: &mut [u32], output: &mut [u8]) -> Result<Service, Fault> {
        let numbers = self.call(memory, output);
        self.judge(numbers, memory, output)
    }
}
