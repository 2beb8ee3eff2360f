// Values that are read from texts, and written again.
use json_value::Value;
use std::alloc::Global;
use std::process::Abort;
use texts::{FromValue, ReadValue, ShapeError, WriteValue};

fn value_of(rt: &impl Abort, alloc: Global, text: &str) -> Value {
    Value::from_str(alloc, text).expect(rt, "the text is JSON")
}

// Whether a text is read as a value.
fn is_read<T: FromValue + PartialEq + Drop>(
    rt: &impl Abort,
    alloc: Global,
    text: &str,
    value: &T,
) -> bool {
    match T::from_value(&value_of(rt, alloc, text)) {
        Some(read) => read == *value,
        None => false,
    }
}

/// Each text is read as its value.
pub(crate) fn reads<T: FromValue + PartialEq + Drop>(
    rt: &impl Abort,
    alloc: Global,
    rows: &[(&str, T)],
) {
    for (text, value) in rows {
        assert!(rt; is_read(rt, alloc, text, value), "{text}");
    }
}

/// None of the texts is read.
pub(crate) fn refuses<T: FromValue + Drop>(rt: &impl Abort, alloc: Global, texts: &[&str]) {
    for text in texts {
        assert!(rt;
            T::from_value(&value_of(rt, alloc, text)).is_none(),
            "{text}"
        );
    }
}

// The text of the value that is read from a text.
fn written<T: FromValue + WriteValue + Drop>(rt: &impl Abort, alloc: Global, text: &str) -> String {
    let read = T::from_value(&value_of(rt, alloc, text)).expect(rt, "a value of the form");
    let value = read.write_value(alloc).expect(rt, "memory");
    value.to_string(alloc).expect(rt, "memory")
}

/// What is read from each text is written as the same text.
pub(crate) fn writes_back<T: FromValue + WriteValue + Drop>(
    rt: &impl Abort,
    alloc: Global,
    texts: &[&str],
) {
    for text in texts {
        assert!(rt; written::<T>(rt, alloc, text).as_str() == *text, "{text}");
    }
}

/// Reads a value of a text, with a reader that allocates.
pub(crate) fn read_all<T: ReadValue + Drop>(
    rt: &impl Abort,
    alloc: Global,
    text: &str,
) -> Result<T, ShapeError> {
    T::read_value(alloc, &value_of(rt, alloc, text))
}

/// No reader that allocates reads any of the texts.
pub(crate) fn refuses_all<T: ReadValue + Drop>(rt: &impl Abort, alloc: Global, texts: &[&str]) {
    for text in texts {
        let refusal = read_all::<T>(rt, alloc, text).err();
        assert!(rt; refusal == Some(ShapeError::BadShape), "{text}");
    }
}
