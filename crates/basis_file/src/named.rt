//! The names of columns and rows at nodes: `flat` writes `C`, or `R`, then the node, `_`, and the number of the column or row.

/// A column or a row at a node, by their numbers.
#[derive(Clone, Copy, Debug, Drop, PartialEq, Eq, Hash)]
pub(crate) struct AtNode {
    pub(crate) node: u32,
    pub(crate) number: u32,
}

/// The number of some digits, without a 0 in front of others.
fn number_of(digits: &[u8]) -> Option<u32> {
    if digits.is_empty() || (digits.len() > 1 && digits[0] == b'0') {
        return None;
    }
    let mut number: u32 = 0;
    for digit in digits {
        if *digit < b'0' || *digit > b'9' {
            return None;
        }
        let value = (*digit - b'0') as u32;
        number = number.checked_mul(10)?.checked_add(value)?;
    }
    Some(number)
}

/// What stands before the first `_`, and what stands behind it.
fn split_name(name: &[u8]) -> (&[u8], &[u8]) {
    for place in 0..name.len() {
        if name[place] == b'_' {
            return (&name[..place], &name[place + 1..]);
        }
    }
    (name, &[])
}

/// The column or row of a name that begins with this letter.
pub(crate) fn at_node(letter: u8, name: &[u8]) -> Option<AtNode> {
    if name.is_empty() || name[0] != letter {
        return None;
    }
    let (node, number) = split_name(&name[1..]);
    Some(AtNode {
        node: number_of(node)?,
        number: number_of(number)?,
    })
}
