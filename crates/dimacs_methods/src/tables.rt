//! Access to tables by number. Beyond the end, reading gives a default and writing does nothing.

/// The member with this index, or `past`.
#[inline(always)]
pub(crate) fn member<T: Copy>(table: &[T], index: u32, past: T) -> T {
    match table.get(index as usize) {
        Some(&value) => value,
        None => past,
    }
}

#[inline(always)]
pub(crate) fn set_member<T: Copy>(table: &mut [T], index: u32, value: T) {
    if let Some(place) = table.get_mut(index as usize) {
        *place = value;
    }
}

/// The members at these indices; none if some are beyond the end.
#[inline(always)]
pub(crate) fn members<T>(table: &[T], start: u32, end: u32) -> &[T] {
    match table.get(start as usize..end as usize) {
        Some(members) => members,
        None => &[],
    }
}

/// The number of members, at most `u32::MAX`.
pub(crate) fn count_of<T>(table: &[T]) -> u32 {
    u32::try_from(table.len()).unwrap_or(u32::MAX)
}
