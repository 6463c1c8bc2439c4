ghost use Rattle.std.specs.Prelude.{◌≡◌};
ghost use Rattle.ferry_blob.specs.Batch.{bytes_at};

/// The bytes of the buffer in a place, of which there are none behind the last buffer.
pub(crate) fn bytes_at(buffers: &[Vec<u8>], place: usize) -> &[u8]
    ensures bytes { result.now ≡ bytes_at buffers.now place }
{
    match buffers.get(place) {
        Some(buffer) => buffer.as_slice(),
        None => &[],
    }
}
