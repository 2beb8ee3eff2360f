//! What no clause says of transactions: that calls succeed under ample memory, and the order of outpoints. `vectors` reads known bytes.

use lists::ByteString;
use std::alloc::Global;
use std::process::Abort;
use tx::{
    DecodeError, Inputs, OutPoint, Outputs, Tx, TxIn, TxOut, Witness, decode, decode_stripped,
    encode, encode_stripped,
};

// The sizes of a transaction: the numbers of inputs, of outputs and of items of each input, and the bytes of each item and of each script.
#[derive(Clone, Copy)]
pub(crate) struct Sizes {
    pub inputs: usize,
    pub outputs: usize,
    pub items: usize,
    pub item: usize,
    pub script: usize,
}

// A string of one byte, repeated.
fn repeated(rt: &impl Abort, alloc: Global, byte: u8, count: usize) -> ByteString {
    ByteString::from_vec(vec![in alloc; byte; count].expect(rt, "memory"))
}

// A witness of items of one length.
fn witness_of(rt: &impl Abort, alloc: Global, items: usize, len: usize) -> Witness {
    let mut witness = Witness::new(alloc);
    for k in 0..items {
        let item = repeated(rt, alloc, (k % 251) as u8, len);
        witness.push(item).expect(rt, "an item");
    }
    witness
}

// Inputs that all have this witness.
fn inputs_of(rt: &impl Abort, alloc: Global, count: usize, witness: &Witness) -> Inputs {
    let mut inputs = Inputs::new(alloc);
    for k in 0..count {
        let outpoint = OutPoint {
            txid: [(k % 256) as u8; 32],
            index: (k % 5_000) as u32,
        };
        let input = TxIn {
            outpoint,
            sequence: 144,
            witness: witness.copy().expect(rt, "memory"),
        };
        inputs.push(input).expect(rt, "an input");
    }
    inputs
}

// Outputs to scripts of one length.
fn outputs_of(rt: &impl Abort, alloc: Global, count: usize, len: usize) -> Outputs {
    let mut outputs = Outputs::new(alloc);
    for k in 0..count {
        let script = repeated(rt, alloc, (k % 251) as u8, len);
        let output = TxOut::new((k % 5_000) as u64, script).expect(rt, "an output");
        outputs.push(output).expect(rt, "an output");
    }
    outputs
}

// A transaction of these sizes.
pub(crate) fn transaction_of(rt: &impl Abort, alloc: Global, sizes: &Sizes) -> Tx {
    let witness = witness_of(rt, alloc, sizes.items, sizes.item);
    let inputs = inputs_of(rt, alloc, sizes.inputs, &witness);
    let outputs = outputs_of(rt, alloc, sizes.outputs, sizes.script);
    Tx::new(2, inputs, outputs, 500).expect(rt, "an input")
}

// A transaction that was copied, encoded and decoded.
fn read_again(rt: &impl Abort, alloc: Global, tx: &Tx) -> Tx {
    let copy = tx.copy().expect(rt, "memory");
    let bytes = encode(alloc, &copy).expect(rt, "memory");
    decode(alloc, &bytes).expect(rt, "a transaction")
}

// A transaction that was encoded and decoded without its witnesses.
fn stripped(rt: &impl Abort, alloc: Global, tx: &Tx) -> Tx {
    let bytes = encode_stripped(alloc, tx).expect(rt, "memory");
    decode_stripped(alloc, &bytes).expect(rt, "a transaction")
}

// Whether a transaction is the same once it is read again, and then without its witnesses too.
fn is_same_again(rt: &impl Abort, alloc: Global, tx: &Tx) -> bool {
    let mut read = read_again(rt, alloc, tx);
    let is_same = read.equals(tx);
    read.strip_witnesses();
    is_same && !read.equals(tx) && stripped(rt, alloc, tx).equals(&read)
}

// Whether a transaction of these sizes is copied, encoded and decoded, with and without witnesses.
fn goes_round(rt: &impl Abort, alloc: Global, sizes: &Sizes) -> bool {
    is_same_again(rt, alloc, &transaction_of(rt, alloc, sizes))
}

pub(crate) const PLAIN: Sizes = Sizes {
    inputs: 1,
    outputs: 1,
    items: 1,
    item: 1,
    script: 22,
};

// Sizes at each limit.
const LIMITS: [Sizes; 3] = [
    Sizes {
        inputs: 4_000,
        outputs: 4_000,
        items: 1,
        item: 1,
        script: 22,
    },
    Sizes {
        inputs: 1,
        outputs: 1,
        items: 1_001,
        item: 0,
        script: 22,
    },
    Sizes {
        inputs: 1,
        outputs: 1,
        items: 1,
        item: 10_000,
        script: 10_000,
    },
];

// At lengths from small to large, in every part, and at each limit.
#[test]
fn goes_round_in_every_shape(rt: HostRuntime) {
    for n in (1usize..=600).step_by(7) {
        let shapes = [
            Sizes { item: n, ..PLAIN },
            Sizes { script: n, ..PLAIN },
            Sizes { items: n, ..PLAIN },
            Sizes { inputs: n, ..PLAIN },
            Sizes {
                outputs: n,
                ..PLAIN
            },
        ];
        for sizes in &shapes {
            assert!(rt; goes_round(&rt, rt.alloc(), sizes), "{n}");
        }
    }
    for sizes in &LIMITS {
        assert!(rt; goes_round(&rt, rt.alloc(), sizes));
    }
}

// The outpoint with an id that has these first and last bytes.
fn outpoint_of(first: u8, last: u8, index: u32) -> OutPoint {
    let mut txid = [first; 32];
    txid[31] = last;
    OutPoint { txid, index }
}

// Outpoints are ordered by their ids, and then by their indices.
#[test]
fn orders_outpoints(rt: HostRuntime) {
    assert!(rt; outpoint_of(0, 1, 9) < outpoint_of(0, 2, 0));
    assert!(rt; outpoint_of(0, 2, 0) < outpoint_of(0, 2, 256));
    assert!(rt; outpoint_of(0, 2, 256) < outpoint_of(1, 0, 0));
}

// The example in the documentation of `tx`.
fn pays(alloc: Global, bytes: &[u8], value: u64) -> Result<bool, DecodeError> {
    let tx = decode(alloc, bytes)?;
    Ok(tx.outputs().iter().any(|output| output.value() == value))
}

const TWO_OUTPUTS: Sizes = Sizes {
    inputs: 1,
    outputs: 2,
    items: 1,
    item: 1,
    script: 22,
};

// The outputs have the values 0 and 1.
#[test]
fn finds_an_output_by_its_value(rt: HostRuntime) {
    let tx = transaction_of(&rt, rt.alloc(), &TWO_OUTPUTS);
    let bytes = encode(rt.alloc(), &tx).expect(&rt, "memory");
    assert!(rt; matches!(pays(rt.alloc(), &bytes, 1), Ok(true)));
}
