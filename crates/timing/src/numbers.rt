//! A plain scan of a certificate: one product and one sum for each of its numbers.

use std::alloc::{AllocError, Global};
use tv_lines::{Line, Lines};
use tv_text::split_texts;

/// A product and a sum for each number.
fn added(total: i128, numbers: &[i64]) -> i128 {
    let mut sum = total;
    for number in numbers {
        sum = sum.wrapping_add(i128::from(*number).wrapping_mul(3));
    }
    sum
}

/// How many numbers the lines after the heading have, and what they come to.
pub(crate) fn scanned(alloc: Global, text: &[u8]) -> Result<String, AllocError> {
    let (_, certificate) = split_texts(text);
    let mut lines = Lines::new(certificate);
    let mut total = 0;
    let mut count = 0u64;
    for _ in 0..certificate.len() {
        match lines.next(alloc)? {
            None => break,
            Some(Line::Formed(_, numbers)) => {
                total = added(total, &numbers);
                count = count.wrapping_add(numbers.len() as u64);
            }
            Some(_) => {}
        }
    }
    format!(in alloc; "{count} numbers, {total}")
}
