// No code: the theorem on nearest sites is in specs/ (on whole numbers Nearest.nearest, on paths Ends.path-nearest, on corners Owners.build-owners; the short test of
// the hull Linear.by-runs; all of it on the grid's profile Profile.ends-nearest, owns-nearest).

#![tactic(auto)]
