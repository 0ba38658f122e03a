// Going through so many places, one at a time.
ghost use Rattle.heads.specs.Advancing.{Advances};

/// The next of `count` places, if one is left; `at` then stands behind it.
pub fn advance(at: &mut usize, count: usize) -> Option<usize>
    ensures { Advances count at.old result at.new }
{
    let place = *at;
    if place >= count {
        return None;
    }
    *at = place + 1;
    Some(place)
}
