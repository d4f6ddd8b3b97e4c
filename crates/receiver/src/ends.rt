// The two ends of a block, where its samples meet the window: the head, and the last window.
ghost use Rattle.std.specs.Prelude.{◌≡◌, ◌++◌, ◌+◌, length, min, take, drop};

// The old window, with at most 31 samples of the block behind it.
pub(crate) fn head(window: &[i16; 32], samples: &[i16]) -> [i16; 64]
    ensures { let n = min (length samples.now) 31 in take (32 + n) result ≡ window.now ++ take n samples.now }
{
    let mut head = [0i16; 64];
    let n = samples.len().min(31);
    head[..32].copy_from_slice(window);
    head[32..32 + n].copy_from_slice(&samples[..n]);
    head
}

// The last 32 of the window and the samples.
pub(crate) fn last_window(window: &[i16; 32], samples: &[i16]) -> [i16; 32]
    ensures { result ≡ drop (length samples.now) (window.now ++ samples.now) }
{
    let mut last = [0i16; 32];
    let n = samples.len().min(32);
    last[..32 - n].copy_from_slice(&window[n..]);
    last[32 - n..].copy_from_slice(&samples[samples.len() - n..]);
    last
}
