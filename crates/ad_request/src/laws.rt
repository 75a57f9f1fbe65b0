ghost use Rattle.ad_request.specs.Requests.{AsksForOneThing};

/// A line asks for one thing only.
pub fn one_asking()
    ensures { AsksForOneThing }
{}
