// What scripts say, what numbers make, and what words ask for.
use crate::calls::push_words;
use ken_gen::{script_of, summary, torment};
use ken_model::{MAX_INPUTS, MAX_NODES, PAGE};
use ken_net::{Act, LinkAct};
use ken_rows::{Answer, RowFault, Words};
use ken_script::{MAX_ROUNDS, Script, ScriptFault, read};
use ken_words::command_in;
use std::alloc::{AllocError, Global};

/// Answers what a script says, or the first rule that it breaks.
pub(crate) fn tell_read(
    alloc: Global,
    bytes: &[u8],
    answer: &mut Answer,
) -> Result<Option<Script>, RowFault> {
    match read(alloc, bytes) {
        Ok(script) => {
            tell_script(&script, answer)?;
            Ok(Some(script))
        }
        Err(ScriptFault::Memory) => Err(RowFault::Memory),
        Err(fault) => {
            answer.word(&format!(in alloc; "{fault}")?)?;
            Ok(None)
        }
    }
}

// Answers the numbers of a script, and how many items its lists have.
fn tell_script(script: &Script, answer: &mut Answer) -> Result<(), AllocError> {
    let facts = &script.facts;
    answer.named("nodes", u64::from(facts.nodes))?;
    answer.named("pages", facts.size / PAGE)?;
    answer.named("seed", script.seed)?;
    answer.named("turns", facts.turns)?;
    answer.named("rounds", script.rounds)?;
    answer.named("restarts", script.restarts)?;
    answer.end()?;
    answer.named("inputs", facts.inputs.len() as u64)?;
    answer.named("cuts", script.cuts.len() as u64)?;
    answer.named("mail", script.mail.len() as u64)?;
    answer.named("acks", script.acks.len() as u64)?;
    answer.named("outlets", script.outlets.len() as u64)
}

/// Answers each item of a list of a script.
pub(crate) fn tell_list(
    script: &Script,
    words: &mut Words<'_>,
    answer: &mut Answer,
) -> Result<(), RowFault> {
    match words.word()? {
        b"inputs" => {
            for input in script.facts.inputs.as_slice() {
                answer.number(u64::from(input.node))?;
                answer.text(input.text.as_slice())?;
                answer.end()?;
            }
        }
        b"cuts" => {
            for cut in script.cuts.as_slice() {
                let (node, disk) = (u64::from(cut.node), u64::from(cut.disk));
                answer.numbers(&[node, disk, cut.call, cut.pick])?;
                answer.end()?;
            }
        }
        b"outlets" => {
            for fail in script.outlets.as_slice() {
                answer.numbers(&[u64::from(fail.node), fail.call])?;
                answer.end()?;
            }
        }
        b"mail" => tell_acts(script.mail.as_slice(), answer)?,
        b"acks" => tell_acts(script.acks.as_slice(), answer)?,
        _ => return Err(RowFault::Usage),
    }
    Ok(())
}

fn tell_acts(acts: &[LinkAct], answer: &mut Answer) -> Result<(), AllocError> {
    for act in acts {
        answer.numbers(&[u64::from(act.from), u64::from(act.to), act.n])?;
        match act.act {
            Act::Lose => answer.word("lose")?,
            Act::Repeat => answer.word("repeat")?,
            Act::Hold(later) => answer.number(u64::from(later))?,
        }
        answer.end()?;
    }
    Ok(())
}

/// The script of a seed and numbers of nodes, inputs and rounds. Answers what it says, and the summary of its run by the paths of the inputs alone.
pub(crate) fn tell_drawn(
    alloc: Global,
    words: &mut Words<'_>,
    answer: &mut Answer,
) -> Result<Script, RowFault> {
    let seed = words.number()?;
    let nodes = words.within(1, u64::from(MAX_NODES))? as u8;
    let inputs = words.within(0, MAX_INPUTS as u64)? as u16;
    let rounds = words.within(0, MAX_ROUNDS)?;
    let script = script_of(alloc, seed, nodes, inputs, rounds)?;
    tell_script(&script, answer)?;
    answer.lines(summary(alloc, seed, nodes, inputs)?.as_slice())?;
    Ok(script)
}

/// The script of the rest of a row with the faults of a seed. Answers what it says.
pub(crate) fn tell_tormented(
    alloc: Global,
    words: &mut Words<'_>,
    answer: &mut Answer,
) -> Result<Script, RowFault> {
    let seed = words.number()?;
    let script = match read(alloc, words.rest()?) {
        Ok(script) => torment(seed, script)?,
        Err(ScriptFault::Memory) => return Err(RowFault::Memory),
        Err(ScriptFault::Rule { .. }) => return Err(RowFault::Usage),
    };
    tell_script(&script, answer)?;
    Ok(script)
}

/// Answers what the words of a command line, the first of which is the program's name, ask for.
pub(crate) fn tell_command(
    alloc: Global,
    words: &mut Words<'_>,
    answer: &mut Answer,
) -> Result<(), RowFault> {
    let mut list = Vec::new(alloc);
    push_words(alloc, &mut list, words)?;
    match command_in(alloc, &list)? {
        Some(command) => answer.word(&format!(in alloc; "{command:?}")?)?,
        None => answer.word("nothing")?,
    }
    Ok(())
}
