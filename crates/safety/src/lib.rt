//! Who can take the outputs that a revoked commitment pays: laws of scripts, signatures and keys, and no code that runs. Whoever makes the transactions, an output that the owner's peer
//! can claim is taken in one of three ways. The peer takes it; or an HTLC transaction does, whose output the peer can claim again; or the owner does after its delay. Otherwise a hash
//! collision is shown. So on a chain with a revoked commitment the whole channel is there for the peer.
//!
//! Where each transaction comes from what two sides recorded of their channels, [`laws::taken`] says more: what takes such an output is a filling of the peer's, the HTLC's transaction, or the
//! owner's filling after the delay. Two transactions of one id are one, whatever their witnesses, and two claims at one outpoint are on one output of one transaction.
//!
//! `penalty` and `resolve` say what a side can claim, `filling` what a filling is, `sighash` and `keys` whose signature a script asks for, and `chain` which inputs pass its checks. `world` brings
//! these laws to the chain that it plays.
#![tactic(auto)]

pub mod laws;
