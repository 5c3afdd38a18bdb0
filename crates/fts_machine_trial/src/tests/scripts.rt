//! Worked rows of bans and of hours in the queue, by hand, for `worked`. A ban names its moment, its storage and whether its files wait or are cancelled;
//! an expiry, and a submission of a job with hours, their moment.

/// Each row's sentence, and its script.
pub const BANS_AND_HOURS: [(&str, &str); 13] = [
    (
        "a ban keeps files waiting until it ends",
        "restart 2 = 0 released\n\
         submit one = job 1\n\
         ban 0 https://b.example wait = 0 cancelled\n\
         banned = https://b.example\n\
         claim 0 0 = idle\n\
         states 1 = SUBMITTED SUBMITTED\n\
         unban 0 https://b.example = unbanned\n\
         banned = none\n\
         claim 0 0 = file 1 attempt 1",
    ),
    (
        "a ban with cancel says how many it cancelled, and a copy goes on",
        "restart 2 = 0 released\n\
         submit five = job 1\n\
         submit to-c = job 2\n\
         submit hops = job 3\n\
         claim 0 0 = file 1 attempt 1\n\
         ban 0 https://b.example cancel = 8 cancelled\n\
         states 1 = ACTIVE CANCELED CANCELED CANCELED CANCELED ACTIVE\n\
         states 2 = CANCELED SUBMITTED ACTIVE\n\
         states 3 = CANCELED CANCELED CANCELED CANCELED\n\
         reasons 2 = cancelled none\n\
         waits 1 = false 0 0\n\
         held 0 1 = 1\n\
         report 0 1 1 verified = file 1 FINISHED\n\
         states 1 = FINISHED CANCELED CANCELED CANCELED CANCELED CANCELED\n\
         claim 0 0 = file 7 attempt 1",
    ),
    (
        "a ban that comes again cancels what waits since",
        "restart 2 = 0 released\n\
         submit one = job 1\n\
         ban 0 https://b.example wait = 0 cancelled\n\
         ban 0 https://b.example cancel = 1 cancelled\n\
         ban 0 https://b.example cancel = 0 cancelled\n\
         submit one = job 2\n\
         banned = https://b.example\n\
         states 1 = CANCELED CANCELED\n\
         states 2 = SUBMITTED SUBMITTED\n\
         claim 0 0 = idle",
    ),
    (
        "a copy at a banned storage fails, and waits for the end of the ban",
        "restart 2 = 0 released\n\
         submit one = job 1\n\
         claim 1000 0 = file 1 attempt 1\n\
         ban 1000 https://a.example cancel = 0 cancelled\n\
         report 1000 1 1 failed = file 1 SUBMITTED\n\
         claim 1060 0 = idle\n\
         unban 1060 https://a.example = unbanned\n\
         claim 1060 0 = file 1 attempt 2",
    ),
    (
        "a later hop at a banned storage is where its job stops",
        "restart 2 = 0 released\n\
         submit hops = job 1\n\
         ban 0 https://c.example cancel = 0 cancelled\n\
         claim 0 0 = file 1 attempt 1\n\
         report 0 1 1 verified = file 1 FINISHED\n\
         claim 0 0 = idle\n\
         states 1 = FINISHED SUBMITTED NOT_USED ACTIVE\n\
         ban 0 https://c.example cancel = 2 cancelled\n\
         states 1 = FINISHED CANCELED CANCELED CANCELED",
    ),
    (
        "bans stay in their order, whatever a restart lists",
        "restart 2 = 0 released\n\
         ban 0 https://c.example wait = 0 cancelled\n\
         ban 0 https://b.example wait = 0 cancelled\n\
         ban 0 https://c.example wait = 0 cancelled\n\
         banned = https://c.example https://b.example\n\
         restart 2 without-b = 0 released\n\
         banned = https://c.example https://b.example\n\
         ban 0 https://b.example wait = no storage\n\
         unban 0 https://c.example = unbanned\n\
         banned = https://b.example\n\
         restart 2 turned = 0 released\n\
         submit five = job 1\n\
         claim 0 0 = idle\n\
         submit to-c = job 2\n\
         claim 0 0 = file 7 attempt 1\n\
         restart 2 without-b = 1 released\n\
         unban 0 https://b.example = unbanned\n\
         banned = none\n\
         unban 0 https://b.example = not banned",
    ),
    (
        "only what is listed is banned, and only a ban ends",
        "ban 0 https://a.example wait = no storage\n\
         unban 0 https://a.example = not banned\n\
         expire 0 = idle\n\
         restart 2 = 0 released\n\
         ban 0 https://d.example cancel = no storage\n\
         unban 0 https://d.example = not banned\n\
         unban 0 https://a.example = not banned\n\
         banned = none",
    ),
    (
        "an hour in the queue ends at its second, behind a ban too",
        "restart 2 = 0 released\n\
         submit hour 1000 = job 1\n\
         ban 1000 https://b.example wait = 0 cancelled\n\
         expire 4599 = idle\n\
         states 1 = SUBMITTED SUBMITTED\n\
         expire 4600 = 1 expired\n\
         states 1 = CANCELED CANCELED\n\
         reasons 1 = expired\n\
         expire 4600 = idle",
    ),
    (
        "the sources of a file go together",
        "restart 2 = 0 released\n\
         submit hour-sources 1000 = job 1\n\
         ban 1000 https://b.example wait = 0 cancelled\n\
         expire 4599 = idle\n\
         expire 4600 = 3 expired\n\
         states 1 = CANCELED CANCELED CANCELED CANCELED\n\
         reasons 1 = expired expired expired",
    ),
    (
        "a file that runs is not overdue, and one that comes back is",
        "restart 2 = 0 released\n\
         submit hour 1000 = job 1\n\
         claim 4599 0 = file 1 attempt 1\n\
         expire 9000 = idle\n\
         report 9000 1 1 failed = file 1 SUBMITTED\n\
         waits 1 = false 1 9060\n\
         expire 9000 = 1 expired\n\
         states 1 = CANCELED CANCELED\n\
         reasons 1 = expired",
    ),
    (
        "a hop that is woken behind its job's hour goes with the hops behind it",
        "restart 2 = 0 released\n\
         submit hour-hops 1000 = job 1\n\
         claim 1000 0 = file 1 attempt 1\n\
         expire 5000 = idle\n\
         report 5000 1 1 verified = file 1 FINISHED\n\
         states 1 = FINISHED SUBMITTED NOT_USED ACTIVE\n\
         expire 5000 = 2 expired\n\
         states 1 = FINISHED CANCELED CANCELED CANCELED\n\
         reasons 1 = none expired expired",
    ),
    (
        "a clock that falls back makes no file younger",
        "restart 2 = 0 released\n\
         submit hour 1000 = job 1\n\
         ban 4600 https://c.example wait = 0 cancelled\n\
         submit hour 1000 = job 2\n\
         expire 1000 = 1 expired\n\
         states 2 = SUBMITTED SUBMITTED\n\
         expire 8199 = idle\n\
         expire 8200 = 1 expired",
    ),
    (
        "no moment comes after the greatest",
        "restart 2 = 0 released\n\
         submit one 1000 = job 1\n\
         submit hour 18446744073709551000 = job 2\n\
         expire 18446744073709551614 = idle\n\
         expire 18446744073709551615 = 1 expired\n\
         states 1 = SUBMITTED SUBMITTED\n\
         states 2 = CANCELED CANCELED",
    ),
];
