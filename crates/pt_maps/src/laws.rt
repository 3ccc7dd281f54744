ghost use Rattle.pt_maps.specs.Laws.{MeetInAnId, HaveOneRule, ForbiddenAlone, MapBothWays, TerminatedMeetAll};

/// Accepted rules say of each id one thing in each direction.
pub fn rules_are_unambiguous()
    ensures meeting { MeetInAnId }
    ensures one_rule { HaveOneRule }
    ensures forbidden { ForbiddenAlone }
    ensures both_ways { MapBothWays }
{}

/// Terminated rules for names leave none unmet.
pub fn terminated_rules_meet_all()
    ensures { TerminatedMeetAll }
{}
