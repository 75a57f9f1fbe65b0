ghost use Rattle.ad_items.specs.Items.{SplitsAlways, SplitsOnce};

/// All input is split into items and an end, in one way only.
pub fn one_split()
    ensures some { SplitsAlways }
    ensures one { SplitsOnce }
{}
