//! Calls of a chain as values, and what they answer.

ghost use Rattle.std.specs.Prelude.{◌≡◌, IfOk, OnErr};
ghost use Rattle.chain.specs.Replays.{Answered, Replays, ReplaysBefore};

use crate::coins::Coins;
use crate::errors::{BlockError, ChainError};
use crate::totals::Unspent;
use std::alloc::{AllocError, Global};
use tx::{OutPoint, Tx, TxOut};

/// A call of a chain.
#[derive(Debug, Drop)]
pub enum Command {
    /// `grant`: the output.
    Grant(TxOut),
    /// `check_input`: the transaction, and the index of the input.
    CheckInput(Tx, usize),
    /// `connect`: the transactions of the block.
    Connect(Vec<Tx>),
    /// `disconnect`: the number of blocks.
    Disconnect(u64),
    /// `unspent`.
    Unspent,
    /// `height`.
    Height,
    /// `fees`.
    Fees,
}

/// What a call of a chain answers.
#[derive(Debug, Drop)]
pub enum Answer {
    /// Of `grant`: the outpoint.
    Grant(Result<OutPoint, ChainError>),
    /// Of `check_input`.
    CheckInput(Result<(), ChainError>),
    /// Of `connect`: the height of the block.
    Connect(Result<u64, BlockError>),
    /// Of `disconnect`: the transactions of the blocks taken off.
    Disconnect(Result<Vec<Tx>, ChainError>),
    /// Of `unspent`.
    Unspent(Unspent),
    /// Of `height`.
    Height(u64),
    /// Of `fees`, in satoshis.
    Fees(u128),
}

/// Makes one call. The only error is that memory ran out for its answer or for a copy of what the command holds; then the call was not made.
fn make_call<C: Coins>(chain: &mut C, command: &Command) -> Result<Answer, AllocError>
    ensures ok { IfOk result (λ a. Answered (C.standing chain.old) command.now a
        (C.standing chain.new)) }
    ensures err { OnErr result (C.standing chain.new ≡ C.standing chain.old) }
{
    match command {
        Command::Grant(output) => Ok(Answer::Grant(chain.grant(output.copy()?))),
        Command::CheckInput(tx, index) => Ok(Answer::CheckInput(chain.check_input(tx, *index))),
        Command::Connect(txs) => Ok(Answer::Connect(chain.connect(txs.clone()?))),
        Command::Disconnect(k) => Ok(Answer::Disconnect(chain.disconnect(*k))),
        Command::Unspent => Ok(Answer::Unspent(chain.unspent()?)),
        Command::Height => Ok(Answer::Height(chain.height())),
        Command::Fees => Ok(Answer::Fees(chain.fees()?)),
    }
}

/// Makes calls in their order, and gives their answers. The only error is that memory ran out for the answers or for a copy of what a command holds. The
/// chain is then as after the calls before that command, each of which was made and answered.
pub fn replay_commands<C: Coins>(
    alloc: Global,
    chain: &mut C,
    commands: &[Command],
) -> Result<Vec<Answer>, AllocError>
    ensures ok { IfOk result (λ answers. Replays (C.standing chain.old) commands.now answers.items
        (C.standing chain.new)) }
    ensures err { OnErr result (ReplaysBefore (C.standing chain.old) commands.now
        (C.standing chain.new)) }
{
    let mut answers = Vec::with_capacity(alloc, commands.len())?;
    for command in commands {
        let answer = make_call(chain, command)?;
        answers.push(answer).unwrap();
    }
    Ok(answers)
}
