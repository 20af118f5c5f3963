ghost use Rattle.fdp_finding.specs.Limits.{AreTheLimits};

/// Each limit that the definitions name has the number that the documents give.
pub fn limits_are_those_of_the_documents()
    ensures { AreTheLimits }
{}
