// Halls, directed cuts, choices and the hall file, as definitions: specs/Hall.antt and specs/File.antt. No code.
#![tactic(auto)]
