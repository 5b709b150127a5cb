// A state or a log buffer of a desk's length, of which the first places are given; the others are 0.

pub fn filled<T: Copy + Default, const N: usize>(from: &[T]) -> [T; N] {
    let mut places = [T::default(); N];
    for (place, value) in places.iter_mut().zip(from) {
        *place = *value;
    }
    places
}
