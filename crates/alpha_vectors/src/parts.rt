/// A part of a column, and how often it stands: N times where `*N` is behind it, else once.
pub fn split_repetition(part: &str) -> anyhow::Result<(&str, u32)> {
    match part.split_once('*') {
        Some((part, count)) => Ok((part, count.parse::<u32>()?)),
        None => Ok((part, 1)),
    }
}
