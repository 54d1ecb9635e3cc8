// What logs and items have.
use ken_model::Out;
use ken_record::{Base, Header, Page, Record};
use ken_rows::Answer;
use std::alloc::AllocError;

pub(crate) fn show_header(header: &Header, answer: &mut Answer) -> Result<(), AllocError> {
    answer.end()?;
    answer.named("node", u64::from(header.node))?;
    answer.named("nodes", u64::from(header.nodes))?;
    answer.named("pages", u64::from(header.pages))?;
    answer.named("generation", u64::from(header.generation))?;
    answer.named("turns", header.turns)?;
    answer.named("base", u64::from(header.base_len))
}

pub(crate) fn show_record(record: &Record, answer: &mut Answer) -> Result<(), AllocError> {
    answer.end()?;
    answer.named("turn", record.turn)?;
    answer.named("stamp", record.stamp)?;
    answer.named("from", u64::from(record.from))?;
    answer.named("number", record.number)?;
    answer.named_numbers("draws", record.draws.as_slice())?;
    for sent in record.sends.as_slice() {
        let numbers = [u64::from(sent.to), sent.number];
        show_line("send", &numbers, sent.bytes.as_slice(), answer)?;
    }
    show_lists(record.outs.as_slice(), record.pages.as_slice(), answer)
}

pub(crate) fn show_base(base: &Base, answer: &mut Answer) -> Result<(), AllocError> {
    answer.end()?;
    answer.named("stamp", base.stamp)?;
    answer.named_numbers("consumed", base.consumed.as_slice())?;
    answer.named_numbers("sent", base.sent.as_slice())?;
    answer.named("outputs", base.outputs)?;
    for due in base.messages.as_slice() {
        let numbers = [u64::from(due.to), due.number, due.stamp];
        show_line("message", &numbers, due.bytes.as_slice(), answer)?;
    }
    show_lists(base.outs.as_slice(), base.pages.as_slice(), answer)
}

fn show_lists(outs: &[Out], pages: &[Page], answer: &mut Answer) -> Result<(), AllocError> {
    for out in outs {
        show_line("output", &[out.number], out.text.as_slice(), answer)?;
    }
    for page in pages {
        let place = [u64::from(page.page)];
        show_line("page", &place, page.bytes.as_slice(), answer)?;
    }
    Ok(())
}

fn show_line(name: &str, ns: &[u64], bytes: &[u8], answer: &mut Answer) -> Result<(), AllocError> {
    answer.end()?;
    answer.named_numbers(name, ns)?;
    answer.text(bytes)
}
